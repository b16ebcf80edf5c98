//! How each kind of statement is run, in a file of its own. Its definition in specs/ has that name.

pub mod assigning;
pub mod branching;
pub mod calling;
pub mod entities;
pub mod filing;
pub mod looping;
pub mod printing;
pub mod reading;
pub mod timing;
