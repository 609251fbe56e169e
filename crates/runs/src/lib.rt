// Running a script with its inverse log, and moving operators from log to log, as undo and redo do: the definitions,
// the answers, and the way in. The code rests on what is known of sound tables, and stands above that.

#![tactic(auto)]

pub mod answers;
pub mod enter;
