//! The built-in configuration, for a run or a server without a configuration file.

ghost use Rattle.std.specs.Prelude.{Ok};
ghost use Rattle.program.specs.BuiltIn.{built_in_config};
ghost use Rattle.configuration.specs.ConfigFaults.{Gives};
ghost use Rattle.configuration.specs.Configs.{config_data};

use configuration::{Config, ConfigFault, read_config};
use std::alloc::{Allocator, Global};

/// The text of the built-in configuration.
const BUILT_IN: &str =
    r#"{"subjects":[{"name":"north","office":"north","role":"editor"},{"name":"south","office":"south","role":"viewer"},{"name":"chief","office":"hq","role":"chief","steward":true}],"policies":{"root":{"combine":"first-applicable","policy":"start","rules":[{"effect":"permit","rule":"open"}]}}}"#;

/// The built-in configuration. Its subjects are `north`, an editor of the office north; `south`, a
/// viewer of the office south; and `chief`, the steward, of the office hq. Its policy permits
/// everything. The only error is `Memory`.
pub fn built_in_config<A: Allocator + Copy>(
    alloc: A,
    heap: Global,
) -> Result<Config<A>, ConfigFault>
    ensures { Gives config_data result (Ok built_in_config) }
{
    read_config(alloc, heap, BUILT_IN.as_bytes())
}
