//! Laws of the definitions. Each function here has an empty body, and its contract is the law. Nothing here runs.

ghost use Rattle.std.specs.Prelude.{◌≡◌, ◌⊎◌, ℕ, List};
ghost use Rattle.flk_cfg.specs.File.{IsConfig, IsFirstFault};
ghost use Rattle.flk_cfg.specs.declared.config.Config.{Config as Value};
ghost use Rattle.flk_field.specs.declared.kind.Kind.{Kind as FaultKind};

/// Bytes write at most one configuration.
pub fn bytes_have_one_configuration()
    ensures { (bytes : List ℕ) (c d : Value) → IsConfig bytes c → IsConfig bytes d → c ≡ d }
{}

/// Bytes that write a configuration have no first fault. So `read_cfg` answers a fault only where they write none.
pub fn bytes_of_a_configuration_have_no_fault()
    ensures { (bytes : List ℕ) (c : Value) (line field : ℕ) (kind : FaultKind) → IsConfig bytes c
        → IsFirstFault bytes line field kind → ⊥ }
{}

/// Bytes have at most one first fault: one line, one field and one kind.
pub fn bytes_have_one_first_fault()
    ensures { (bytes : List ℕ) (line other field place : ℕ) (kind sort : FaultKind) → IsFirstFault bytes line field kind
        → IsFirstFault bytes other place sort
        → (line ≡ other) × (field ≡ place) × (kind ≡ sort) }
{}

/// Any bytes write a configuration, or have a first fault. With the laws above it is exactly one of both.
pub fn bytes_are_a_configuration_or_have_a_fault()
    ensures { (bytes : List ℕ) → ((c : Value) × IsConfig bytes c)
        ⊎ ((line : ℕ) × (field : ℕ) × (kind : FaultKind) × IsFirstFault bytes line field kind) }
{}
