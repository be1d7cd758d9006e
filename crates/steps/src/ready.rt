// A step that may begin now, as a policy is told of it.

// `tail` is the step's minutes and those of all the steps behind it, along the targets up to step 0.
#[derive(Clone, Copy, PartialEq, Eq, Debug, Default)]
pub struct Ready {
    pub step: u16,
    pub minutes: u16,
    pub tail: u32,
}
