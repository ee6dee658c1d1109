// An upload that is known to be lawful: the type carries that it is, so whoever holds one can read it with no way to fail.
ghost use Rattle.std.specs.Prelude.{◌≡◌, true};
ghost use Rattle.grammar.specs.Threads.{is_lawful};

#[derive(Clone, Copy)]
pub struct LawfulUpload<'a> {
    pub bytes: &'a [u8],
    pub ghost lawful: { is_lawful bytes.now ≡ true },
}
