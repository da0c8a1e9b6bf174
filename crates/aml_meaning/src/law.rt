// Laws of the meaning, over its definitions alone.

ghost use Rattle.aml_meaning.specs.Laws.{BodiesAreInOrder, CallsKeepTheFrame, ListsAreInOrder, TermsTakeAStep, TermsWantAStep};
ghost use Rattle.aml_meaning.specs.Quiet.{QuietTermsKeep};
ghost use Rattle.aml_meaning.specs.Whole.{DoneIsStable, ErrorIsStable, LeftBitIsHighest, OtherAnswerIsNone, OtherIsNoSleep, ReadIsAnswered, RightBitIsLowest, SleepIsAnswered, ZeroHasNoBit};

/// A body that is done with so many steps is done with more, just so, and they are left; and one
/// that meets an error meets the same.
pub fn done_is_stable()
    ensures done { DoneIsStable }
    ensures error { ErrorIsStable }
{}

/// A read goes on with the answer that the script has for it, and the answer to another unit's read
/// is none.
pub fn reads_are_answered()
    ensures answered { ReadIsAnswered }
    ensures other { OtherAnswerIsNone }
{}

/// A Sleep goes on with the contents that the script has for it, and with those that names hold
/// where it has none; no other event answers it.
pub fn sleeps_are_answered()
    ensures answered { SleepIsAnswered }
    ensures other { OtherIsNoSleep }
{}

/// FindSetLeftBit and FindSetRightBit give the number, counted from 1, of the highest and of the
/// lowest bit that is set; of 0 they give 0.
pub fn set_bits_are_found()
    ensures left { LeftBitIsHighest }
    ensures right { RightBitIsLowest }
    ensures zero { ZeroHasNoBit }
{}

/// A list of statements is its first part and then the rest, wherever it is parted.
pub fn lists_are_in_order()
    ensures lists { ListsAreInOrder }
    ensures bodies { BodiesAreInOrder }
{}

/// A term takes a step, whatever it is: with none left, it is out of steps, and else fewer are left
/// behind it, however it ends.
pub fn terms_take_a_step()
    ensures wanted { TermsWantAStep }
    ensures taken { TermsTakeAStep }
{}

/// However a call ends, the caller's locals, arguments, own names and mutexes stand as before.
pub fn calls_keep_the_frame()
    ensures { CallsKeepTheFrame }
{}

/// A term without calls, stores, loops and Sleeps, in which no mutex is taken or released, changes
/// no name, no local, no argument and no list of mutexes, whatever comes of it.
pub fn quiet_terms_keep()
    ensures { QuietTermsKeep }
{}
