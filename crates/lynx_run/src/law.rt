//! What holds of the texts of commands.
ghost use Rattle.std.specs.Prelude.{◌≡◌, ℕ, List, Some};
ghost use Rattle.std.specs.List.{concat};
ghost use Rattle.command_words.specs.declared.words.Command.{Command as ACommand};
ghost use Rattle.lynx_command.specs.Course.{Course, Outside, Took};
ghost use Rattle.lynx_command.specs.Found.{OutputLines};
ghost use Rattle.lynx_load.specs.Loading.{Loading};
ghost use Rattle.lynx_outside.specs.Files.{Listing};
ghost use Rattle.lynx_outside.specs.declared.status.Status.{Status as AStatus};
ghost use Rattle.lynx_run.specs.Bench.{Benches};
ghost use Rattle.lynx_run.specs.Commands.{Answers, file_of};
ghost use Rattle.lynx_run.specs.Complete.{AreObeyed, HasFileOf, HasNoFault, IsComplete, IsCompleteBench, IsCompleteRun};
ghost use Rattle.lynx_run.specs.Drive.{IsDriven};
ghost use Rattle.lynx_run.specs.Run.{IsRunOfPlan, RunsPlan};
ghost use Rattle.run_counts.specs.Summary.{IsSummary};
ghost use Rattle.transcript_audit.specs.Audit.{IsAudited};
ghost use Rattle.transcript_lines.specs.declared.last.Last.{Last};

/// What `drive` puts on out is a text that `audit` accepts, where it has no more bytes than `audit` reads.
pub fn driven_is_audited()
    ensures { (bytes : List ℕ) (lines : List (List ℕ)) → IsDriven bytes lines → (last : Last) × IsAudited (concat lines) last }
{}

/// So is what `run` puts of a plan that was loaded.
pub fn ran_is_audited()
    ensures { (x : Loading) (turns : ℕ) (output : OutputLines) → IsRunOfPlan x turns output → (last : Last) × IsAudited (concat output.lines) last }
{}

/// `drive` has one text to put of a script.
pub fn driven_is_one_text()
    ensures { (bytes : List ℕ) (lines others : List (List ℕ)) → IsDriven bytes lines → IsDriven bytes others → lines ≡ others }
{}

/// `bench` has one text to put of a seed.
pub fn benched_is_one_text()
    ensures { (seed : ℕ) (lines others : List (List ℕ)) → IsSummary seed lines → IsSummary seed others → lines ≡ others }
{}

/// Where nothing outside fails, the file of a command that reads one file is there and within its limit, and its bytes obey the command's rules, the
/// status is 0 and out gets the whole text, or memory ran out. Of files that tell what they hold this is said by that, else by what the
/// read answered. Of `bench`, which reads no file, it holds of any seed.
pub fn each_command_is_complete()
    ensures by_files { (command : ACommand) (course : Course) (ended : AStatus) (old new : Outside) (files : Listing)
        → old.files.contents ≡ Some files → HasFileOf command files → Answers (Some command) course → Took course ended old new
        → HasNoFault old new → IsComplete command course ended }
    ensures by_answer { (command : ACommand) (name : List ℕ) (most : ℕ) (course : Course) (ended : AStatus) (old new : Outside)
        → file_of command ≡ Some (name, most) → Answers (Some command) course → Took course ended old new → HasNoFault old new
        → AreObeyed command course.reads → IsComplete command course ended }
    ensures by_seed { (seed : ℕ) (course : Course) (ended : AStatus) (old new : Outside) → Benches seed course → Took course ended old new
        → HasNoFault old new → IsCompleteBench seed course ended }
{}

/// Where nothing outside fails, out gets the whole text of the run of a plan that is loaded, and the status is 0 or that of used turns; or the
/// failure for which it is not loaded is told, with its status; or memory ran out.
pub fn each_run_is_complete()
    ensures { (name : List ℕ) (turns : ℕ) (course : Course) (ended : AStatus) (old new : Outside) → RunsPlan name turns course
        → Took course ended old new → HasNoFault old new → IsCompleteRun name turns course ended }
{}
