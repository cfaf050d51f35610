//! Laws of what the commands answer, which follow from what `top` answers.
#![tactic(auto)]

ghost use Rattle.swi_answer_laws.specs.Answered.{AnswersAreOne};
ghost use Rattle.swi_answer_laws.specs.Counted.{StatsCostFew, StatsHaveRoom, StatsMissFew};
ghost use Rattle.swi_answer_laws.specs.Parts.{ImageIsOne, PlacedWordsAreOne, ProgramIsOne, RefusalIsOne, RoundsAreOne};
ghost use Rattle.swi_answer_laws.specs.Surveyed.{SurveyIsCached};

/// What the contract of [`top`](swi_top::top) leaves to a command's choice, each of which is one thing; it does nothing.
///
/// The image of a file, the program of a seed, the rounds of a run beside an engine, the words in which placed blocks
/// stand, and the refusal by the first check that fails.
pub fn laws_of_parts()
    ensures image { ImageIsOne }
    ensures program { ProgramIsOne }
    ensures rounds { RoundsAreOne }
    ensures words { PlacedWordsAreOne }
    ensures refusal { RefusalIsOne }
{}

/// Two laws of the answers of [`top`](swi_top::top), for who reads them; it does nothing.
///
/// What is asked of a command has one answer, where no device fails and there is memory: the same result, the same bytes
/// on each sink and under OUT, the same input left, the same counts, fetches and placed blocks. And each line of `survey`
/// tells what `cached --stats` does with that size.
///
/// Of an input that doesn't tell what is left, `top` answers so for each input from which what it gave may have been read;
/// both laws hold of each of these.
pub fn laws_of_answers()
    ensures answers { AnswersAreOne }
    ensures survey { SurveyIsCached }
{}

/// Three laws of what `cached --stats` tells, for who reads it; it does nothing.
///
/// Where there is a slot for each block, none is told as evicted. Whatever another policy of eviction keeps in as many slots,
/// or fewer, it copies few blocks less than are told as missed. In slots and in a ring the counts are no more than so many
/// steps can take.
pub fn laws_of_counts()
    ensures room { StatsHaveRoom }
    ensures misses { StatsMissFew }
    ensures cost { StatsCostFew }
{}
