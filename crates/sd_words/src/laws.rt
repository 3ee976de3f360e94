//! Laws of the definitions: functions whose contracts state a fact, and that do nothing.

ghost use Rattle.std.specs.Prelude.{◌≡◌, List, None, Ok, Some, not, true};
ghost use Rattle.std.specs.List.{All, list_all};
ghost use Rattle.clap.specs.Walk.{Text};
ghost use Rattle.sd_words.specs.Fitting.{FitsTogether};
ghost use Rattle.sd_words.specs.JobOf.{job_from, job_of, job_of_parsed};
ghost use Rattle.sd_words.specs.Options.{word_of};
ghost use Rattle.sd_words.specs.Ordinary.{Setting, Spells, has_each_once, setting_of, sets};
ghost use Rattle.sd_words.specs.Rows.{words_fault_text};
ghost use Rattle.sd_words.specs.declared.faults.WordsFault.{WordsFault};
ghost use Rattle.sd_words.specs.declared.jobs.Job.{Job};

/// No two faults have one text, whatever their options and names. OutOfMemory, which is no fault of
/// the words, has the empty text.
pub fn one_fault()
    ensures { (e f : WordsFault) → words_fault_text e ≡ words_fault_text f → e ≡ f }
{}

/// A job of words has its numbers in their ranges, and what it has goes together: parts, a choice of starts, a circuit
/// and a check stand beside nothing that they exclude.
pub fn fitting_jobs()
    ensures { (words : List Text) (job : Job) → job_of words ≡ Ok job → FitsTogether job }
{}

/// Ordinary words, which are `--WORD=VALUE`, and `--WORD VALUE` where the value begins with no hyphen, and of a flag
/// `--WORD`, each option at most once, have the job of their values, without a look at what `clap` makes of words.
pub fn ordinary_words()
    // They have the job of these values, or the text of the first fault of these.
    ensures read { (settings : List Setting) (words : List Text) → Spells settings words
        → job_of words ≡ job_from (setting_of settings) }

    // A job that they have is that of the values, each in its place.
    ensures job { (settings : List Setting) (words : List Text) (job : Job) → Spells settings words
        → job_of words ≡ Ok job → job ≡ job_of_parsed (setting_of settings) }

    // The value of an option is the one in its setting, which of a flag is `true`,
    ensures values { (settings : List Setting) → has_each_once settings ≡ true
        → All (λ s. setting_of settings (word_of s.option) ≡ Some s.value) settings }

    // and without a setting it has none.
    ensures others { (settings : List Setting) (word : Text)
        → list_all (λ s. not (sets word s)) settings ≡ true → setting_of settings word ≡ None }
{}
