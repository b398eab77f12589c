ghost use Rattle.std.specs.Prelude.{◌≡◌};
ghost use Rattle.fx_files.specs.Forms.{
  default_structure,
  form_text,
  form_word,
  own_keys,
  structure_text,
  structure_word,
};

use fx_keys::Key;

/// The form in which a file gives a filter.
#[derive(Clone, Copy)]
pub enum Form {
    /// A transfer function.
    Tf,
    /// Second-order sections, one behind the other.
    Sos,
    /// A state space.
    Ss,
    /// A lattice with taps.
    Lattice,
}

impl Form {
    /// The form's word in a file.
    pub fn word(self) -> &'static str
        ensures { result.now ≡ form_text self }
    {
        match self {
            Form::Tf => "tf",
            Form::Sos => "sos",
            Form::Ss => "ss",
            Form::Lattice => "lattice",
        }
    }

    // The form of a word.
    pub(crate) fn of_word(word: &str) -> Option<Form>
        ensures { result ≡ form_word word.now }
    {
        match word {
            "tf" => Some(Form::Tf),
            "sos" => Some(Form::Sos),
            "ss" => Some(Form::Ss),
            "lattice" => Some(Form::Lattice),
            _ => None,
        }
    }

    // The keys of the form's coefficients.
    pub(crate) fn keys(self) -> &'static [Key]
        ensures { result.now ≡ own_keys self }
    {
        match self {
            Form::Tf => &[Key::B, Key::A],
            Form::Sos => &[Key::Sections],
            Form::Ss => &[Key::MatA, Key::MatB, Key::MatC, Key::MatD],
            Form::Lattice => &[Key::K, Key::V],
        }
    }

    // The structure of a file that names none.
    pub(crate) fn structure(self) -> Structure
        ensures { result ≡ default_structure self }
    {
        match self {
            Form::Tf => Structure::Df1,
            Form::Sos => Structure::Df2t,
            Form::Ss => Structure::Ss,
            Form::Lattice => Structure::Lattice,
        }
    }
}

/// The structure of the code that is to be made.
#[derive(Clone, Copy)]
pub enum Structure {
    /// Direct form 1.
    Df1,
    /// Direct form 2.
    Df2,
    /// Direct form 2, transposed.
    Df2t,
    /// A finite impulse response.
    Fir,
    /// A lattice with taps.
    Lattice,
    /// A state space.
    Ss,
}

impl Structure {
    /// The structure's word in a file.
    pub fn word(self) -> &'static str
        ensures { result.now ≡ structure_text self }
    {
        match self {
            Structure::Df1 => "df1",
            Structure::Df2 => "df2",
            Structure::Df2t => "df2t",
            Structure::Fir => "fir",
            Structure::Lattice => "lattice",
            Structure::Ss => "ss",
        }
    }

    // The structure of a word.
    pub(crate) fn of_word(word: &str) -> Option<Structure>
        ensures { result ≡ structure_word word.now }
    {
        match word {
            "df1" => Some(Structure::Df1),
            "df2" => Some(Structure::Df2),
            "df2t" => Some(Structure::Df2t),
            "fir" => Some(Structure::Fir),
            "lattice" => Some(Structure::Lattice),
            "ss" => Some(Structure::Ss),
            _ => None,
        }
    }
}
