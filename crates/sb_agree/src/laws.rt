//! The laws of memories that agree: functions without a body, each of which states some.

ghost use Rattle.sb_agree.specs.Laws.{AccountsGrowByCalls, AccountsGrowByExecutions, AccountsGrowByFetches, ExecutionsAgree, ExecutionsWithoutAccount, FetchesAgree, FetchesWithoutAccount, HoldingMemoriesAgree, WordsAgree, WrittenWordsAreHeld};

/// A memory that has all its frames and holds some words of another agrees with it at these words, before anything is written.
pub fn holding_memories_agree()
    ensures { HoldingMemoriesAgree }
{}

/// Memories that agree hold the same values in the words that were written.
pub fn written_words_are_held()
    ensures { WrittenWordsAreHeld }
{}

/// An instruction that is fetched over a memory is fetched over one that agrees with it, and the same words are noted.
pub fn fetches_agree()
    ensures { FetchesAgree }
{}

/// An execution that no access stops has the same answer, registers and account over a memory that agrees, and the memories that
/// are left agree again.
pub fn executions_agree()
    ensures { ExecutionsAgree }
{}

/// A word that is read at a multiple of 8 is the same in a memory that agrees, and is noted in the same way.
pub fn words_agree()
    ensures { WordsAgree }
{}

/// What was noted as read stays noted.
pub fn accounts_grow()
    ensures fetch { AccountsGrowByFetches }
    ensures execution { AccountsGrowByExecutions }
    ensures call { AccountsGrowByCalls }
{}

/// What comes of a fetch and of an execution is the same where no account is kept.
pub fn accounts_do_not_matter()
    ensures fetch { FetchesWithoutAccount }
    ensures execution { ExecutionsWithoutAccount }
{}
