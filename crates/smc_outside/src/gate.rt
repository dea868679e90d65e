/// What a worker of a group calls before each of its commands. It has no meaning: a test may hold a worker here until
/// another one has come so far.
pub trait Gate: Sync {
    /// Before the command of this number, from 0, of the worker of this number, from 1.
    fn before(&self, worker: u32, command: u32);
}

/// Lets every worker through.
pub struct OpenGate;

impl Gate for OpenGate {
    fn before(&self, _worker: u32, _command: u32) {}
}
