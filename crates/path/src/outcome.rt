// What the path answers.

// A refusal, 0 for none, and how many states are listed.
// Stays: two numbers, since C sees them; the tests inside give a Result.
#[repr(C)]
#[derive(Clone, Copy)]
pub struct Path {
    pub refusal: u64,
    pub states: u64,
}
