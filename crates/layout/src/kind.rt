//! Kinds, sorts, preferences and marks of elements, and their numbers in a plan file.

ghost use Rattle.std.specs.Prelude.{◌≡◌};
ghost use Rattle.layout.specs.Numbers.{kind_of, dual_of, sort_of, marks_of};
ghost use Rattle.layout.specs.Kinds.{ports, is_sectioned, is_point, is_signal};

/// What an element is.
#[derive(Clone, Copy, PartialEq, Eq, Default)]
pub enum Kind {
    /// A section without points, or a parking line.
    #[default]
    Track,
    Point,
    Derailer,
    Signal,
    PlanEnd,
}

/// The kind with a number; the last one where no kind has it.
impl From<u8> for Kind {
    ghost from_gives = { λ number kind. kind ≡ kind_of number };

    fn from(number: u8) -> Kind {
        match number {
            0 => Kind::Track,
            1 => Kind::Point,
            2 => Kind::Derailer,
            3 => Kind::Signal,
            _ => Kind::PlanEnd,
        }
    }
}

impl Kind {
    /// How many ports an element of the kind has.
    pub fn port_count(self) -> u8
        ensures { result ≡ ports self }
    {
        match self {
            Kind::Point => 3,
            Kind::Track | Kind::Derailer | Kind::Signal => 2,
            Kind::PlanEnd => 1,
        }
    }

    /// Whether an element of the kind lies in a section.
    pub fn has_section(self) -> bool
        ensures { result ≡ is_sectioned self }
    {
        matches!(self, Kind::Track | Kind::Point | Kind::Derailer)
    }

    pub fn is_point(self) -> bool
        ensures { result ≡ is_point self }
    {
        self == Kind::Point
    }

    pub fn is_signal(self) -> bool
        ensures { result ≡ is_signal self }
    {
        self == Kind::Signal
    }
}

/// The position that a point with the dual field prefers: it may shield in that one only.
#[derive(Clone, Copy, PartialEq, Eq)]
pub enum Dual {
    NoPreference,
    PrefersPlus,
    PrefersMinus,
}

/// The preference with a number; the last one where none has it.
impl From<u8> for Dual {
    ghost from_gives = { λ number dual. dual ≡ dual_of number };

    fn from(number: u8) -> Dual {
        match number {
            0 => Dual::NoPreference,
            1 => Dual::PrefersPlus,
            _ => Dual::PrefersMinus,
        }
    }
}

/// What a signal is for.
#[derive(Clone, Copy, PartialEq, Eq)]
pub enum Sort {
    Shunting,
    Train,
    Entry,
}

/// The sort with a number; the last one where none has it.
impl From<u8> for Sort {
    ghost from_gives = { λ number sort. sort ≡ sort_of number };

    fn from(number: u8) -> Sort {
        match number {
            0 => Sort::Shunting,
            1 => Sort::Train,
            _ => Sort::Entry,
        }
    }
}

/// The marks of a signal.
#[derive(Clone, Copy, PartialEq, Eq)]
pub struct Marks {
    /// The signal is requested at a flank.
    pub requested: bool,
    /// The lamp of the signal is not proved at the end of a route.
    pub lamp_spared: bool,
}

/// The marks with a number, their sum.
impl From<u8> for Marks {
    ghost from_gives = { λ number marks. marks ≡ marks_of number };

    fn from(number: u8) -> Marks {
        Marks {
            requested: number % 2 == 1,
            lamp_spared: number / 2 % 2 == 1,
        }
    }
}
