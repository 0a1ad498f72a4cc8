//! Consequences of the definitions alone. The functions do nothing: each is its contract.

ghost use Rattle.std.specs.Prelude.{◌≡◌, ℕ, List, Ok};
ghost use Rattle.configuration.specs.Configs.{ConfigData, config_of};
ghost use Rattle.configuration.specs.Spelling.{Spells};

/// A text is read as the configuration that it spells, and as no other; if it spells one, it is
/// read.
pub fn read_is_spelled()
    ensures found { (text : List ℕ) (config : ConfigData) → config_of text ≡ Ok config
        → Spells text config }
    ensures only { (text : List ℕ) (config : ConfigData) → Spells text config
        → config_of text ≡ Ok config }
{}

/// No text spells two configurations.
pub fn configurations_are_one()
    ensures { (text : List ℕ) (a b : ConfigData) → Spells text a → Spells text b → a ≡ b }
{}
