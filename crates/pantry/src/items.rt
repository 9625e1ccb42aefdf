ghost use Rattle.std.specs.Prelude.{◌≡◌, true};
ghost use Rattle.pantry.specs.File.{accepted};

// A pantry over the bytes of an item file that loading accepts.
#[derive(Clone, Copy)]
pub struct Items<'a> {
    pub(crate) file: &'a [u8],
    ghost ok: { accepted file.now ≡ true },
}
