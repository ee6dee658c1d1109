// What a record asks for, which field H01 names.
ghost use Rattle.fields.specs.Actions.{letter_of, action_in};
ghost use Rattle.fields.specs.Inverse.{Inverse};
ghost use Rattle.std.specs.Prelude.{◌≡◌};

#[derive(Clone, Copy, PartialEq, Eq, Debug)]
pub enum Action {
    Normal,
    Exceptional,
    Cancel,
    Delete,
}

impl Action {
    // The action that a letter names, if it names one.
    #[tactic(auto, using(crate::proofs::Actions::inverse))]
    pub fn read(letter: &[u8]) -> Option<Action>
        ensures value { result ≡ action_in letter.now }
        ensures law { Inverse letter_of action_in }
    {
        let &[letter] = letter else {
            return None;
        };
        match char::from(letter) {
            'A' => Some(Action::Normal),
            'B' => Some(Action::Exceptional),
            'C' => Some(Action::Cancel),
            'D' => Some(Action::Delete),
            _ => None,
        }
    }
}
