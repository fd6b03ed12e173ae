// Where the reader stands.
ghost use Rattle.std.specs.Prelude.{◌<◌, length};

// The place p inside a body: a byte stands there.
#[derive(Clone, Copy)]
pub struct At<'b> {
    pub b: &'b [u8],
    pub p: usize,
    ghost inside: { p < length b.now },
}
