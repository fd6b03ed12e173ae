// What the report is told from, once the rounds are done.
use index::Plan;

// The body of an image with the entries of work, and how those are laid out. What asks the search takes the three by themselves:
// of a struct that lends work for change each call would have to promise that body and plan stay. That they are those of a program
// (`SomeReads`) stays a clause: a ghost field has to be a proposition, and truncated to one it would not give the program that the
// contracts below ask for.
#[derive(Clone, Copy)]
pub struct Entries<'b, 'w> {
    pub b: &'b [u8],
    pub work: &'w [u32],
    pub plan: Plan,
}
