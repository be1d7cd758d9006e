// The format of job files: the definitions that `jobfile` is held to, and what is proved of them.
#![tactic(auto)]

// How far a file is read: nothing of it yet, its head, or its end record too.
#[derive(Clone, Copy)]
pub enum Stage {
    Start,
    Body,
    Finished,
}
