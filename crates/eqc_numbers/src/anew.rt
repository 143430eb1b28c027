//! Words that are equal since both are what a netlist made anew comes to.
//!
//! A product that was mapped has few of its adders left, so it can't be added up. But a product
//! made anew in the architecture that it came from shares most of what it is made of, so that
//! searches find the two equal; and what is made anew can be added up.
ghost use Rattle.std.specs.Prelude.{◌≡◌, IfOk, IfSome, IsTrue};
ghost use Rattle.eqc_xag.specs.Graph.{Extends};
ghost use Rattle.eqc_sums.specs.Adding.{AreEqualWords};

use crate::chains::{Shape, copy_shaped};
use crate::compared::TURNS;
use crate::cuts::are_equal_over_cuts;
use crate::shown::{Depth, Words, are_shown_equal, are_shown_in, copies, copy_both};
use eqc_polynomials::is_sum_of_products;
use eqc_products::{Made, Reference, References, make_array, make_references};
use eqc_sweep::{Effort, Sweep};
use eqc_xag::{Graph, Literal, Node};
use std::alloc::{AllocError, Global};

/// A word may be of a netlist's architecture where so many of a thousand of its sums are among what
/// the word is made of.
const ALIKE: u32 = 350;

/// Where so many literals of its adders are, the word is as it was made: it can be added up itself.
const AS_MADE: u32 = 980;

/// A product by itself that has fewer, and wasn't shown equal by what it adds up to, is searched for.
const WHOLE: u32 = 1_000;

/// A word with this part more inputs than literals is of several products.
const MORE_INPUTS: usize = 4;

/// Where a netlist made anew has such a part of its gates that aren't there, they are others: a flow
/// rewrote the word.
const REWRITTEN: u32 = 4;

/// The word of a netlist that was made anew for one of a graph, in that graph.
#[derive(Drop)]
struct Entered {
    word: Vec<Literal>,
    /// Whether such a part of its gates wasn't there that they are others.
    is_new: bool,
    /// Whether a flow changed the word that it was made for.
    is_changed: bool,
}

/// Makes a word of a netlist that is made anew in a graph. Fails where memory is refused.
fn enter(alloc: Global, sweep: &mut Sweep, made: &Made) -> Result<Vec<Literal>, AllocError>
    ensures { Extends sweep.old sweep.new }
{
    let Made { graph, word } = made;
    let table = copy_shaped(alloc, graph, word, sweep, Shape::Plain)?;
    copies(alloc, &table, word)
}

/// The word of a netlist that is made anew in a graph for one that a flow changed, where searches
/// find both equal: one that is as it was made can be added up itself. Fails where memory is refused.
fn found_equal<'a>(
    word: &Words<'_>,
    graph: &Graph,
    entered: &'a Entered,
) -> Result<Option<&'a [Literal]>, AllocError>
    ensures { IfOk result (λ found. IfSome found (λ w. AreEqualWords graph.now word.now.firsts.now w.now)) }
{
    let both = Words {
        seconds: &entered.word,
        ..*word
    };
    if entered.is_changed && both.are_found_equal(graph)? {
        return Ok(Some(&entered.word));
    }
    Ok(None)
}

#[tactic(auto, using(crate::proofs::ShownLaws::equal_along))]
/// Whether two words are shown equal by what both add up to as another one does.
fn are_added_up_by(words: &Words<'_>, graph: &Graph, third: &[Literal]) -> Result<bool, AllocError>
    ensures { IfOk result (λ is. IsTrue is → AreEqualWords graph.now words.now.firsts.now words.now.seconds.now) }
{
    let first = Words {
        seconds: third,
        ..*words
    };
    let second = Words {
        firsts: third,
        ..*words
    };
    Ok(
        are_shown_in(&first, graph, 0, Depth::Array)?
            && are_shown_in(&second, graph, 0, Depth::Array)?,
    )
}

/// Whether so many of a thousand literals of both netlists are among what they are made anew for.
fn are_whole(anew: &References, enough: u32) -> bool {
    anew.first.whole >= enough && anew.second.whole >= enough
}

/// Whether a flow changed a word that is of a netlist's architecture: its gates are others, or fewer
/// than so many of a thousand literals are there.
fn is_changed(reference: &Reference, is_new: bool, enough: u32) -> bool {
    reference.likeness >= ALIKE && (is_new || reference.whole < enough)
}

/// Whether there are so many inputs that a word of so many literals which is a sum of products is
/// one of several: a product has as many literals as its factors have together.
fn is_of_several(graph: &Graph, literals: usize) -> bool {
    let mut inputs: usize = 0;
    for k in 0..graph.len() {
        if let Node::Input(_) = graph.node(k) {
            inputs = inputs.saturating_add(1);
        }
    }
    inputs > literals.saturating_add(literals / MORE_INPUTS)
}

/// Makes the word of a netlist that was made anew for one of a graph in that graph: of one that isn't
/// changed so many of a thousand literals are there. Fails where memory is refused.
fn enter_new(
    alloc: Global,
    sweep: &mut Sweep,
    reference: &Reference,
    enough: u32,
) -> Result<Entered, AllocError>
    ensures { Extends sweep.old sweep.new }
{
    let before = sweep.graph().len();
    let word = enter(alloc, sweep, &reference.made)?;
    let new = sweep.graph().len().saturating_sub(before);
    let is_new = new >= reference.made.graph.len() / REWRITTEN;
    Ok(Entered {
        word,
        is_new,
        is_changed: is_changed(reference, is_new, enough),
    })
}

/// Whether a flow changed one of two words for which netlists were made anew. Fails where memory is
/// refused.
fn is_one_changed(words: &Words<'_>, graph: &Graph, anew: &References) -> Result<bool, AllocError> {
    let mut sweep = Sweep::new(words.alloc, Effort::none())?;
    copy_both(words, graph, &mut sweep, Shape::Plain)?;
    let first = enter_new(words.alloc, &mut sweep, &anew.first, AS_MADE)?;
    let second = enter_new(words.alloc, &mut sweep, &anew.second, AS_MADE)?;
    Ok(first.is_changed || second.is_changed)
}

/// Whether two words of a graph are the same sum of products and look as if they were as they were
/// made: of several products also where they are like no netlist, as where factors are added up
/// first, but not where a flow changed them, since looks at them in vain take long. Nothing is
/// promised of it.
fn look_as_made(words: &Words<'_>, graph: &Graph) -> Result<bool, AllocError> {
    let Words {
        alloc,
        firsts,
        seconds,
        ..
    } = *words;
    let Some(anew) = make_references(alloc, graph, firsts, seconds)? else {
        return is_sum_of_products(alloc, graph, firsts);
    };
    if is_of_several(graph, firsts.len()) {
        return Ok(!is_one_changed(words, graph, &anew)?);
    }
    Ok(are_whole(&anew, AS_MADE))
}

/// In which turn two words of a graph that are the same sum of products get a look: of squares, of
/// which no array is made, the second one comes first, which shows most of them.
fn first_turn(words: &Words<'_>, graph: &Graph) -> Result<u32, AllocError> {
    let array = make_array(words.alloc, graph, words.firsts, words.seconds)?;
    Ok(u32::from(array.is_none()))
}

/// Whether two words of a graph that are the same sum of products are shown equal by what they add
/// up to in a look that takes little, unless they look as if they weren't as they were made. Fails
/// where memory is refused.
pub fn are_equal_as_made(words: &Words<'_>, graph: &Graph) -> Result<bool, AllocError>
    ensures { IfOk result (λ is. IsTrue is → AreEqualWords graph.now words.now.firsts.now words.now.seconds.now) }
{
    if !look_as_made(words, graph)? {
        return Ok(false);
    }
    let turn = first_turn(words, graph)?;
    are_shown_in(words, graph, turn, Depth::AsMade)
}

/// Whether two words of a graph that are the same sum of products are shown equal by a brief look at
/// what they add up to.
fn are_added_up_briefly(words: &Words<'_>, graph: &Graph) -> Result<bool, AllocError>
    ensures { IfOk result (λ is. IsTrue is → AreEqualWords graph.now words.now.firsts.now words.now.seconds.now) }
{
    if !is_sum_of_products(words.alloc, graph, words.firsts)? {
        return Ok(false);
    }
    let turn = first_turn(words, graph)?;
    are_shown_in(words, graph, turn, Depth::Brief)
}

#[tactic(auto, using(crate::proofs::ShownLaws::words_back))]
/// Whether two words of a graph that are the same sum of products are shown equal since both add up
/// to what an array does that is made anew. Words that share parts, but are otherwise of different
/// architectures, are shown so where they aren't by themselves: adders of one may have been found
/// equal to parts of the other.
fn are_equal_by_an_array(words: &Words<'_>, graph: &Graph) -> Result<bool, AllocError>
    ensures { IfOk result (λ is. IsTrue is → AreEqualWords graph.now words.now.firsts.now words.now.seconds.now) }
{
    let Words {
        alloc,
        firsts,
        seconds,
        ..
    } = *words;
    let Some(array) = make_array(alloc, graph, firsts, seconds)? else {
        return Ok(false);
    };
    let mut sweep = Sweep::new(alloc, Effort::none())?;
    let table = copy_both(words, graph, &mut sweep, Shape::Plain)?;
    let ps = copies(alloc, &table, firsts)?;
    let qs = copies(alloc, &table, seconds)?;
    if ps.len() != firsts.len() || qs.len() != seconds.len() {
        return Ok(false);
    }
    let third = enter(alloc, &mut sweep, &array)?;
    let copied = Words {
        firsts: &ps,
        seconds: &qs,
        ..*words
    };
    are_added_up_by(&copied, sweep.graph(), &third)
}

/// Whether two words of a graph that are the same sum of products are shown equal by what they add
/// up to: by a brief look, or as an array does that is made anew. Fails where memory is refused.
pub fn are_equal_by_arrays(words: &Words<'_>, graph: &Graph) -> Result<bool, AllocError>
    ensures { IfOk result (λ is. IsTrue is → AreEqualWords graph.now words.now.firsts.now words.now.seconds.now) }
{
    Ok(are_added_up_briefly(words, graph)? || are_equal_by_an_array(words, graph)?)
}

/// Whether two words are shown equal by what they add up to, soon or in more turns.
fn are_added_up(words: &Words<'_>, graph: &Graph) -> Result<bool, AllocError>
    ensures { IfOk result (λ is. IsTrue is → AreEqualWords graph.now words.now.firsts.now words.now.seconds.now) }
{
    Ok(are_equal_by_arrays(words, graph)? || are_shown_equal(words, graph, TURNS)?)
}

#[tactic(auto, using(crate::proofs::ShownLaws::equal_along))]
/// Whether two words are shown equal, of which one that was made anew is equal to the first one.
fn are_equal_from(words: &Words<'_>, graph: &Graph, one: &[Literal]) -> Result<bool, AllocError>
    requires equal { AreEqualWords graph.now words.now.firsts.now one.now }
    ensures { IfOk result (λ is. IsTrue is → AreEqualWords graph.now words.now.firsts.now words.now.seconds.now) }
{
    let rest = Words {
        firsts: one,
        ..*words
    };
    are_added_up(&rest, graph)
}

#[tactic(auto, using(crate::proofs::ShownLaws::equal_along, crate::proofs::ShownLaws::equal_back))]
/// Whether two words are shown equal, of which one that was made anew is equal to the second one.
fn are_equal_to(
    words: &Words<'_>,
    graph: &Graph,
    one: Option<&[Literal]>,
    other: &[Literal],
) -> Result<bool, AllocError>
    requires one { IfSome one (λ w. AreEqualWords graph.now words.now.firsts.now w.now) }
    requires other { AreEqualWords graph.now words.now.seconds.now other.now }
    ensures { IfOk result (λ is. IsTrue is → AreEqualWords graph.now words.now.firsts.now words.now.seconds.now) }
{
    let rest = Words {
        seconds: other,
        ..*words
    };
    match one {
        None => are_added_up(&rest, graph),
        Some(one) => are_equal_from(&rest, graph, one),
    }
}

/// Whether two words are shown equal by way of words that were made anew: first searches find these
/// equal to the words, and then what is left is added up. Fails where memory is refused.
fn are_equal_by_way(
    words: &Words<'_>,
    graph: &Graph,
    one: Option<&[Literal]>,
    other: Option<&[Literal]>,
) -> Result<bool, AllocError>
    requires one { IfSome one (λ w. AreEqualWords graph.now words.now.firsts.now w.now) }
    requires other { IfSome other (λ w. AreEqualWords graph.now words.now.seconds.now w.now) }
    ensures { IfOk result (λ is. IsTrue is → AreEqualWords graph.now words.now.firsts.now words.now.seconds.now) }
{
    match (one, other) {
        (None, None) => Ok(false),
        (Some(one), None) => are_equal_from(words, graph, one),
        (one, Some(other)) => are_equal_to(words, graph, one, other),
    }
}

/// Whether two words are shown equal in a graph that has what was made anew for both too. What a
/// flow changed isn't shown at a glance.
fn are_equal_in(
    words: &Words<'_>,
    graph: &Graph,
    first: &Entered,
    second: &Entered,
) -> Result<bool, AllocError>
    ensures { IfOk result (λ is. IsTrue is → AreEqualWords graph.now words.now.firsts.now words.now.seconds.now) }
{
    let turned = Words {
        firsts: words.seconds,
        ..*words
    };
    let is_changed = first.is_changed || second.is_changed;
    if !is_changed && are_shown_in(words, graph, 0, Depth::Glance)? {
        return Ok(true);
    }
    let one = found_equal(words, graph, first)?;
    let other = found_equal(&turned, graph, second)?;
    are_equal_by_way(words, graph, one, other)
}

#[tactic(auto, using(crate::proofs::ShownLaws::words_back))]
/// Whether two words of a graph are shown equal by way of these netlists that are made anew for
/// them, where one of the words isn't as it was made: a mapping took adders apart, or rewrote the
/// gates.
fn are_equal_by_references(
    words: &Words<'_>,
    graph: &Graph,
    anew: &References,
) -> Result<bool, AllocError>
    ensures { IfOk result (λ is. IsTrue is → AreEqualWords graph.now words.now.firsts.now words.now.seconds.now) }
{
    let Words {
        alloc,
        firsts,
        seconds,
        ..
    } = *words;
    let mut sweep = Sweep::new(alloc, Effort::none())?;
    let table = copy_both(words, graph, &mut sweep, Shape::Plain)?;
    let ps = copies(alloc, &table, firsts)?;
    let qs = copies(alloc, &table, seconds)?;
    if ps.len() != firsts.len() || qs.len() != seconds.len() {
        return Ok(false);
    }
    let is_of_several = is_of_several(graph, firsts.len());
    let enough = if is_of_several { AS_MADE } else { WHOLE };
    let first = enter_new(alloc, &mut sweep, &anew.first, enough)?;
    let second = enter_new(alloc, &mut sweep, &anew.second, enough)?;
    if !first.is_new && !second.is_new && are_whole(anew, enough) {
        return Ok(false);
    }
    let copied = Words {
        firsts: &ps,
        seconds: &qs,
        ..*words
    };
    are_equal_in(&copied, sweep.graph(), &first, &second)
}

/// The same as `are_equal_anew` where the words are sums of products of inputs. Words as they were
/// made mostly are shown equal at a glance.
pub(crate) fn are_equal_by_way_of_references(
    words: &Words<'_>,
    graph: &Graph,
) -> Result<bool, AllocError>
    ensures { IfOk result (λ is. IsTrue is → AreEqualWords graph.now words.now.firsts.now words.now.seconds.now) }
{
    let Some(anew) = make_references(words.alloc, graph, words.firsts, words.seconds)? else {
        return Ok(false);
    };
    are_equal_by_references(words, graph, &anew)
}

/// Whether two words of a graph are shown equal by way of netlists that are made anew for the sum
/// of products that both are: at a glance, or where one of the words looks as if a mapping had taken
/// its adders apart, or a flow had rewritten its gates. Searches compare a word with what is made
/// anew in the architecture that is most like it, and what is made anew is added up within the words'
/// limits. Factors may be inputs, or nodes that both words are made of. Fails where memory is
/// refused.
pub fn are_equal_anew(words: &Words<'_>, graph: &Graph) -> Result<bool, AllocError>
    ensures { IfOk result (λ is. IsTrue is → AreEqualWords graph.now words.now.firsts.now words.now.seconds.now) }
{
    Ok(are_equal_by_way_of_references(words, graph)? || are_equal_over_cuts(words, graph)?)
}
