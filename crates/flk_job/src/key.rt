//! The keys of a job.

ghost use Rattle.std.specs.Prelude.{◌≡◌, ◌≤◌, option_map};
ghost use Rattle.toml.specs.Data.{integer};
ghost use Rattle.flk_job.specs.Table.{key_number, key_name, default_of, is_key_name};

/// A key of a job, in the order in which they are judged.
#[derive(Clone, Copy, Debug, PartialEq, Eq)]
pub enum Key {
    /// The reference lamp.
    Lamp,
    /// The nominal voltage in millivolts.
    Nominal,
    /// The uncertainty in microvolts.
    Uncertainty,
    /// The channels to measure.
    Channels,
    /// The limit of dmax in percent.
    Dmax,
    /// The run-in in seconds.
    RunIn,
    /// The length of an interval in seconds.
    Interval,
}

impl Key {
    /// The number that is printed for the key, from 1 to 7.
    pub fn number(self) -> u8
        ensures { result ≡ key_number self }
    {
        match self {
            Key::Lamp => 1,
            Key::Nominal => 2,
            Key::Uncertainty => 3,
            Key::Channels => 4,
            Key::Dmax => 5,
            Key::RunIn => 6,
            Key::Interval => 7,
        }
    }

    /// The key as a job file writes it.
    pub fn name(self) -> &'static str
        ensures { result.now ≡ key_name self }
    {
        match self {
            Key::Lamp => "lamp",
            Key::Nominal => "nominal_mv",
            Key::Uncertainty => "uncertainty_uv",
            Key::Channels => "channels",
            Key::Dmax => "dmax",
            Key::RunIn => "run_in_s",
            Key::Interval => "interval_s",
        }
    }

    /// The integer that stands for a key that the document leaves out, in seconds, and None where there is none.
    pub fn default_integer(self) -> Option<i64>
        ensures { option_map (λ z. integer z) result ≡ default_of self }
    {
        match self {
            Key::RunIn => Some(60),
            Key::Interval => Some(600),
            _ => None,
        }
    }
}

/// Whether a key of a document is one of these.
pub fn is_known(name: &str) -> bool
    ensures { result ≡ is_key_name name.now }
{
    name == Key::Lamp.name()
        || name == Key::Nominal.name()
        || name == Key::Uncertainty.name()
        || name == Key::Channels.name()
        || name == Key::Dmax.name()
        || name == Key::RunIn.name()
        || name == Key::Interval.name()
}
