//! Who sits at a desk.

/// Who is told what is wrong with the rows that a desk passes over: nobody, a person at a desk, or one at a desk that looks at a plant's
/// file.
#[derive(Clone, Copy)]
pub enum Audience {
    Nobody,
    Desk,
    Look,
}

impl Audience {
    /// Who sits at a desk that the words of this command line ask for.
    pub fn at_desk(words: &[String]) -> Audience {
        if words.iter().any(|word| word.as_str() == "--look") {
            Audience::Look
        } else {
            Audience::Desk
        }
    }

    /// Whether anybody is to be told.
    pub(crate) fn is_told(self) -> bool {
        match self {
            Audience::Nobody => false,
            Audience::Desk | Audience::Look => true,
        }
    }

    /// Whether the desk only looks.
    pub(crate) fn looks(self) -> bool {
        match self {
            Audience::Nobody | Audience::Desk => false,
            Audience::Look => true,
        }
    }
}
