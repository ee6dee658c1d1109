// Looking up a record.
ghost use Rattle.std.specs.Prelude.{◌≡◌, MatchOption, None};
ghost use Rattle.std.specs.Option.{option_and_then};
ghost use Rattle.register.specs.Keys.{key_in};
ghost use Rattle.receiving.specs.Uses.{LookUpLaws};

use register::entry::Entry;
use register::key::Key;
use register::register::Register;

// The entry that stands under the key of the sender and the identifier; none, if they are no key.
pub fn look_up<R: Register>(register: &R, sender: &[u8], identifier: &[u8]) -> Option<Entry>
    ensures value { result ≡ option_and_then (R.contents register.now).at (key_in sender.now identifier.now) }
    ensures uses { MatchOption (key_in sender.now identifier.now) (result ≡ None) (λ k. LookUpLaws (R.contents register.now) k result) }
{
    register.look_up(&Key::read(sender, identifier)?)
}
