//! Consequences of the definitions alone. The function does nothing: it is its contract.

ghost use Rattle.std.specs.Prelude.{◌≡◌};
ghost use Rattle.command_line.specs.declared.options.TheConstants.{CONNECTION_LIMIT, DEFAULT_HTTP_WORKERS, DEFAULT_WORKERS, FEATURE_LIMIT, FIRST_ID_LIMIT, HTTP_WORKER_LIMIT, IDLE_LIMIT, WORKER_LIMIT};

/// The limits of a server's options, in numbers: connections, workers, workers by default, seconds
/// of `--idle`, workers of HTTP, those by default, and features; and the greatest id of
/// `--first-id`.
pub fn option_limits_in_numbers()
    ensures connections { CONNECTION_LIMIT ≡ 1024 }
    ensures workers { WORKER_LIMIT ≡ 1024 }
    ensures default_workers { DEFAULT_WORKERS ≡ 4 }
    ensures idle { IDLE_LIMIT ≡ 86400 }
    ensures http_workers { HTTP_WORKER_LIMIT ≡ 1024 }
    ensures default_http_workers { DEFAULT_HTTP_WORKERS ≡ 8 }
    ensures features { FEATURE_LIMIT ≡ 4000000 }
    ensures first_id { FIRST_ID_LIMIT ≡ 4294967295 }
{}
