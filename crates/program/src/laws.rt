//! Consequences of the definitions alone. The functions do nothing: each is its contract.

ghost use Rattle.std.specs.Prelude.{◌≡◌};
ghost use Rattle.configuration.specs.declared.files.TheConstants.{CONFIG_LIMIT};
ghost use Rattle.command_line.specs.declared.options.TheConstants.{CONNECTION_LIMIT, DEFAULT_WORKERS, IDLE_LIMIT, WORKER_LIMIT};
ghost use Rattle.command_line.specs.declared.options.TheConstants as options;
ghost use Rattle.features.specs.declared.actors.TheConstants.{SUBJECT_LIMIT};
ghost use Rattle.feature_store.specs.declared.tables.TheConstants.{FEATURE_LIMIT};
ghost use Rattle.audit_trail.specs.declared.trails.TheConstants.{RECORD_LIMIT};
ghost use Rattle.plain_world.specs.declared.settings.TheConstants.{STEP_LIMIT, USUAL_FEATURES};

/// The limits that the definitions name, in numbers. Of a configuration: the bytes of its file and
/// its subjects. Of the world that it opens: features, at most, by `--features`, and where nothing
/// is said, records of the trail, and steps of a search or of the walk for one change. Of a server:
/// connections, workers, workers by default, and seconds of `--idle`.
pub fn limits_in_numbers()
    ensures file { CONFIG_LIMIT ≡ 16777216 }
    ensures subjects { SUBJECT_LIMIT ≡ 64 }
    ensures features { FEATURE_LIMIT ≡ 4000000 }
    ensures asked_features { options.FEATURE_LIMIT ≡ FEATURE_LIMIT }
    ensures usual_features { USUAL_FEATURES ≡ 100000 }
    ensures records { RECORD_LIMIT ≡ 1048576 }
    ensures steps { STEP_LIMIT ≡ 1000000 }
    ensures connections { CONNECTION_LIMIT ≡ 1024 }
    ensures workers { WORKER_LIMIT ≡ 1024 }
    ensures default_workers { DEFAULT_WORKERS ≡ 4 }
    ensures idle { IDLE_LIMIT ≡ 86400 }
{}
