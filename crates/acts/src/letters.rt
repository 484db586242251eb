// The letters of frames that a campaign can inject: i, e and s.
ghost use Rattle.std.specs.Prelude.{◌≡◌};
ghost use Rattle.acts.specs.Letters.{letter_byte, Decodes};

#[derive(Clone, Copy, Debug, PartialEq, Eq)]
pub enum Letter {
    Init,
    Echo,
    Seal,
}

impl From<Letter> for u8 {
    ghost from_gives = { λ letter byte. byte ≡ letter_byte letter };

    fn from(letter: Letter) -> u8 {
        match letter {
            Letter::Init => b'i',
            Letter::Echo => b'e',
            Letter::Seal => b's',
        }
    }
}

// A letter that no frame has.
#[derive(Clone, Copy, Debug, PartialEq, Eq)]
pub struct UnknownLetter;

impl TryFrom<char> for Letter {
    type Error = UnknownLetter;

    ghost try_from_gives = { Decodes };

    fn try_from(letter: char) -> Result<Letter, UnknownLetter> {
        match letter {
            'i' => Ok(Letter::Init),
            'e' => Ok(Letter::Echo),
            's' => Ok(Letter::Seal),
            _ => Err(UnknownLetter),
        }
    }
}
