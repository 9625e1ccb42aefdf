ghost use Rattle.std.specs.Prelude.{◌≤◌, length};

// A lent buffer that is filled from its front.
#[derive(Drop)]
pub(crate) struct Front<'a> {
    pub(crate) buffer: &'a mut [u8],
    pub(crate) at: usize,
    ghost within: { at ≤ length buffer.now },
}
