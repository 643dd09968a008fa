//! Laws of the top call. The function here does nothing; its contract is a law.
ghost use Rattle.std.specs.Prelude.{IfSome};
ghost use Rattle.nmgc_cli.specs.Consequences.{Follows, IsReportOfTask, IsUpgrade, IsPath, IsComplete, IsBenchComplete, IsUpgradeComplete, IsRetainComplete};

/// Proves the consequences of an answer that was written, for each task. So each clause here holds of every call of `nmgc`
/// (by its clause `reported`) and of `program`.
pub fn answers_have_consequences()
    // A report that is returned is lawful for the one script that was read to its end, or for the bench's script, and its end
    // has its cause. The text of the task for this report was written with the status of this end, or a prefix of the text.
    ensures report { Follows (λ arguments left left_after taken taken_after read_fault write_fault status report.
        IfSome report (λ found. IsReportOfTask arguments left left_after taken taken_after write_fault status found)) }
    // If `upgrade` ends as `Done`, one script was read to its end, and the plain spelling of its upgrade was written. It
    // never returns a report, and never ends as `HeapFull`.
    ensures upgrade { Follows (λ arguments left left_after taken taken_after read_fault write_fault status report.
        IsUpgrade arguments left left_after taken taken_after status report) }
    // If `retain` ends as `Done`, an image was read to its end, and the text of a right answer in this image was written. It
    // never returns a report, and never ends as `HeapFull`.
    ensures path { Follows (λ arguments left left_after taken taken_after read_fault write_fault status report.
        IsPath arguments left left_after taken taken_after status report) }
    // For `run`, `image` and `marks N`: if a script within the limit is read and nothing fails, the status is `Done`,
    // `HeapFull` or `NoMemory`. If it is `HeapFull`, each run that the report describes has the cause: its last stop did a
    // full cycle, yet left too few segments free, and is crowded.
    ensures complete { Follows (λ arguments left left_after taken taken_after read_fault write_fault status report.
        IsComplete arguments left read_fault write_fault status report) }
    // For `upgrade`: if a script within the limit is read and nothing fails, the status is `Done`, unless memory runs out.
    ensures upgraded { Follows (λ arguments left left_after taken taken_after read_fault write_fault status report.
        IsUpgradeComplete arguments left read_fault write_fault status) }
    // For `retain`: if an image within the limit is read and nothing fails, the status is `Done` (path or not) or `NoMemory`.
    ensures retain { Follows (λ arguments left left_after taken taken_after read_fault write_fault status report.
        IsRetainComplete arguments left read_fault write_fault status) }
    // For `bench N`: if the sink doesn't fail, its script is run through, with the same statuses and cause of `HeapFull`.
    ensures bench { Follows (λ arguments left left_after taken taken_after read_fault write_fault status report.
        IsBenchComplete arguments write_fault status report) }
{}
