//! Bodies that are always the same.

/// The capabilities of the adapter.
pub const CAPABILITIES: &[u8] = b"{\"supportsConfigurationDoneRequest\":true,\
    \"supportsConditionalBreakpoints\":true,\
    \"supportsFunctionBreakpoints\":true,\"supportsDataBreakpoints\":true,\
    \"supportsStepBack\":true,\"supportsGotoTargetsRequest\":true,\"supportsSteppingGranularity\":true,\
    \"supportsEvaluateForHovers\":true,\"supportsCompletionsRequest\":true,\
    \"supportsExceptionInfoRequest\":true,\"supportsLoadedSourcesRequest\":true,\
    \"supportsDelayedStackTraceLoading\":true,\"supportsRestartRequest\":true,\
    \"supportsTerminateRequest\":true,\"exceptionBreakpointFilters\":\
    [{\"filter\":\"fault\",\"label\":\"Faults\",\"default\":true}]}";

/// The one thread.
pub const THREADS: &[u8] = b"{\"threads\":[{\"id\":1,\"name\":\"the run\"}]}";

/// exited.
pub const NO_EXIT: &[u8] = b"{\"exitCode\":0}";
