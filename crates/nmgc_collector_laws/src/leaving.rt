//! The results of a round for the stop after it. Each function here does nothing; its contract is the law.
ghost use Rattle.nmgc_collector_laws.specs.Leaving.{RoundIsRemembered, RoundIsForgotten};
ghost use Rattle.nmgc_run_laws.specs.Headers.{RowsKeepHeaders};

/// Proves that a round of a runnable plan leaves a heap at a stop (`IsStopped`), with all that the stop's promotion needs.
/// Requires the collector's invariant after a round (`IsAfterRound`), and sound segments (`IsSegments`).
pub fn a_round_leaves_all_for_a_promotion()
    ensures { RoundIsRemembered }
{}

/// Proves that commands remove no name and change no header (`headers`). After a round of a runnable plan, the collector can
/// give up the world as the round began, and go on using the snapshot of a marking cycle (`forgotten`). The snapshot has no
/// object in a nursery. Requires the collector's invariant after the round (`IsAfterRound`), and sound segments.
pub fn the_snapshot_outlives_a_round()
    ensures headers { RowsKeepHeaders }
    ensures forgotten { RoundIsForgotten }
{}
