//! Laws of the definition of a run's answer. The functions do nothing: their contracts are the
//! laws.
ghost use Rattle.eqc_case.specs.AnswerLaws.{AnswerIsOne, AnswerIsVacuous, AnswerIsEquivalent, AnswerDiffers, AnswerIsFirstRefusal, AnswerCompares, ChecksAccept, AnswerIsNoStop, ModelIsChosen, IsAnswerOfRuns};

use std::io::Read;

/// The answer is one for all options in their ranges that allow as many bytes and inputs and want
/// as many differences, and all orders that name the inputs. What is refused is refused alike,
/// whatever order there is.
pub fn answer_is_one_for_all_orders()
    ensures { AnswerIsOne }
{}

/// The answer is `vacuous` exactly where two netlists and an assumption are accepted and no
/// assignment of values to names is allowed.
pub fn answer_is_vacuous_where_nothing_is_allowed()
    ensures { AnswerIsVacuous }
{}

/// The answer is `equivalent` exactly where two netlists are accepted, some assignment is allowed,
/// and each output that is compared has the same value in both under every allowed assignment of
/// values to names.
pub fn answer_is_equivalent_where_always_equal()
    ensures { AnswerIsEquivalent }
{}

/// The answer is that outputs differ exactly where two netlists are accepted and these are the
/// outputs that differ under some allowed assignment, in their order, where each is wanted, or else
/// the first of them alone: the inputs have the least such assignment of each, and the values are
/// the output's under it.
pub fn answer_differs_at_first_difference()
    ensures { AnswerDiffers }
{}

/// The answer is a refusal exactly where that is the first among the checks in their order, it is
/// `vacuous` or compares exactly where all checks pass, which is where two netlists are accepted,
/// and it is never a stop.
pub fn answer_is_first_refusal()
    ensures refused { AnswerIsFirstRefusal }
    ensures compared { AnswerCompares }
    ensures accepted { ChecksAccept }
    ensures stopped { AnswerIsNoStop }
{}

/// The model that is chosen of a text is the one of the name that is given or, without a name, the
/// one at the place; and it is chosen wherever it is there.
pub fn chosen_model_is_the_named_one()
    ensures { ModelIsChosen }
{}

/// What `run` writes is the answer on the bytes of its readers, where those are known, or says why
/// it was stopped.
pub fn runs_are_answered<R: Read>()
    ensures { IsAnswerOfRuns R.remaining }
{}
