//! Who is told of what a session does.
use art_step::StepKind;

/// Is told of each step that the pass of a session makes, and of each reply. All threads share it, and a session goes on only once it has
/// returned: so it may hold one up, which then keeps what it holds, a lock too.
pub trait Gate {
    /// The pass has made a step of this kind.
    fn after(&self, pass: u32, kind: StepKind);

    /// A reply of the pass's session was wholly written, and flushed.
    fn answered(&self, pass: u32);

    /// Whether it is to be told of steps. Where it is not, calls are made at once.
    fn watches(&self) -> bool {
        true
    }
}

/// Nobody is told of anything.
#[derive(Clone, Copy, Debug)]
pub struct NoGate;

impl Gate for NoGate {
    fn after(&self, _pass: u32, _kind: StepKind) {}

    fn answered(&self, _pass: u32) {}

    fn watches(&self) -> bool {
        false
    }
}
