//! Laws of the canonical text. Each function here has an empty body, and its contract is the law. Nothing here runs.

ghost use Rattle.std.specs.Prelude.{ℕ, List, Result};
ghost use Rattle.flk_num.specs.declared.stop.Stop.{Stop as StopView};
ghost use Rattle.flk_cfg.specs.File.{IsConfig, IsFileAnswer};
ghost use Rattle.flk_cfg.specs.Valid.{IsValid};
ghost use Rattle.flk_cfg.specs.Canonical.{canonical, IsReadBack};
ghost use Rattle.flk_cfg.specs.declared.config.Config.{Config as ConfigView};
ghost use Rattle.flk_cfg.specs.declared.kind.CfgFault.{CfgFault as FaultView};

/// The canonical text of a configuration writes that configuration.
pub fn canonical_text_writes_its_configuration()
    ensures { (c : ConfigView) → IsValid c → IsConfig (canonical c) c }
{}

/// The values that the bytes of a file write are in their sets: what is read can be written.
pub fn values_of_a_file_are_valid()
    ensures { (bytes : List ℕ) (c : ConfigView) → IsConfig bytes c → IsValid c }
{}

/// What is written is read back: whatever answers for the canonical text of a configuration, as `read_cfg` does,
/// answers that configuration, or memory was short.
pub fn written_text_is_read_back()
    ensures { (c : ConfigView) (r : Result ConfigView (StopView FaultView)) → IsValid c → IsFileAnswer (canonical c) r
        → IsReadBack c r }
{}
