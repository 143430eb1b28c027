//! What is told of the pair of a case, which is made once more: where its differences begin, or up
//! to where its netlists are known to be equal.
ghost use Rattle.std.specs.Prelude.{◌<◌, length};

use crate::bordering::tell_border;
use crate::choice::{Main, choose, read_main};
use crate::diagnostics::{Compared, Diagnostics, Netlist};
use crate::given::{Case, bytes_of};
use crate::locating::Differing;
use eqc_flat::{Flat, flatten_within};
use eqc_pair::{Pair, pair_choosing};
use eqc_report::{Differences, Left};
use std::alloc::{AllocError, Global};

/// What a run reported of a pair: differences, or outputs that it left undecided.
#[derive(Clone, Copy)]
enum Subject<'x> {
    Differences(&'x Differences),
    Left(&'x Left),
}

/// What is told of, and by what.
#[derive(Drop)]
struct Task<'x> {
    alloc: Global,
    case: &'x Case<'x>,
    subject: Subject<'x>,
    first: Netlist<'x>,
    second: Netlist<'x>,
}

impl<'x> Task<'x> {
    /// Tells of a pair.
    fn tell_pair<T: Diagnostics>(&self, pair: &Pair<'_>, told: &mut T) -> Result<(), AllocError> {
        let compared = Compared {
            pair,
            first: self.first,
            second: self.second,
        };
        let conflicts = u64::from(self.case.options.conflicts);
        match self.subject {
            Subject::Differences(differences) => {
                let differing = Differing {
                    alloc: self.alloc,
                    compared,
                    differences,
                    conflicts,
                };
                differing.tell(told)
            }
            Subject::Left(left) => tell_border(self.alloc, &compared, left, conflicts, told),
        }
    }

    /// The same under the assumption of a text.
    fn tell_assuming<T: Diagnostics>(
        &self,
        pair: Pair<'_>,
        text: &[u8],
        told: &mut T,
    ) -> Result<(), AllocError> {
        let limit = self.case.options.byte_limit();
        match read_main(self.alloc, text, limit, None, 0) {
            Ok(main) => self.tell_main(pair, &main, told),
            Err(_) => Err(AllocError),
        }
    }

    /// The same under the assumption of a model.
    fn tell_main<T: Diagnostics>(
        &self,
        pair: Pair<'_>,
        assumption: &Main,
        told: &mut T,
    ) -> Result<(), AllocError>
        requires { assumption.now.model < length assumption.now.library }
    {
        let Main { library, model } = assumption;
        match flatten_within(self.alloc, library, *model, self.case.options.input_limit()) {
            Ok(assumed) => self.tell_assumed(pair, &assumed, told),
            Err(_) => Err(AllocError),
        }
    }

    /// The same under an assumption that is flat.
    fn tell_assumed<T: Diagnostics>(
        &self,
        pair: Pair<'_>,
        assumed: &Flat<'_>,
        told: &mut T,
    ) -> Result<(), AllocError> {
        match pair.assuming(self.alloc, assumed) {
            Ok(pair) => self.tell_pair(&pair, told),
            Err(_) => Err(AllocError),
        }
    }

    /// The same of two flat netlists.
    fn tell_flats<T: Diagnostics>(
        &self,
        first: &Flat<'_>,
        second: &Flat<'_>,
        told: &mut T,
    ) -> Result<(), AllocError> {
        let case = self.case;
        let order = bytes_of(&case.order);
        match pair_choosing(self.alloc, first, second, case.outputs.names, order) {
            Ok(pair) => match &case.assume {
                None => self.tell_pair(&pair, told),
                Some(text) => self.tell_assuming(pair, text, told),
            },
            Err(_) => Err(AllocError),
        }
    }

    /// The same where the first netlist is flat.
    fn tell_second<T: Diagnostics>(
        &self,
        first: &Flat<'_>,
        told: &mut T,
    ) -> Result<(), AllocError> {
        let limit = self.case.options.input_limit();
        if self.second.model >= self.second.library.models() {
            return Ok(());
        }
        let Ok(second) = flatten_within(self.alloc, self.second.library, self.second.model, limit)
        else {
            return Err(AllocError);
        };
        self.tell_flats(first, &second, told)
    }

    /// The same where neither is.
    fn tell_models<T: Diagnostics>(&self, told: &mut T) -> Result<(), AllocError> {
        let limit = self.case.options.input_limit();
        if self.first.model >= self.first.library.models() {
            return Ok(());
        }
        let Ok(first) = flatten_within(self.alloc, self.first.library, self.first.model, limit)
        else {
            return Err(AllocError);
        };
        self.tell_second(&first, told)
    }
}

/// Tells of the first text's model and one of the second text.
fn tell_two<'x, T: Diagnostics>(
    alloc: Global,
    first: Netlist<'x>,
    text: &'x [u8],
    case: &'x Case<'x>,
    subject: Subject<'x>,
    told: &mut T,
) -> Result<(), AllocError> {
    let limit = case.options.byte_limit();
    let Ok(main) = read_main(alloc, text, limit, case.names.second, 0) else {
        return Err(AllocError);
    };
    let second = Netlist {
        text,
        library: &main.library,
        model: main.model,
    };
    let task = Task {
        alloc,
        case,
        subject,
        first,
        second,
    };
    task.tell_models(told)
}

/// Tells of the pair of a case what a run reported of it.
fn tell_case<'x, T: Diagnostics>(
    alloc: Global,
    case: &'x Case<'x>,
    subject: Subject<'x>,
    told: &mut T,
) -> Result<(), AllocError> {
    let limit = case.options.byte_limit();
    let Ok(main) = read_main(alloc, &case.first, limit, case.names.first, 0) else {
        return Err(AllocError);
    };
    let first = Netlist {
        text: &case.first,
        library: &main.library,
        model: main.model,
    };
    match &case.second {
        Some(text) => tell_two(alloc, first, text, case, subject, told),
        None => {
            let Ok(model) = choose(alloc, &main.library, case.names.second, 1) else {
                return Err(AllocError);
            };
            let second = Netlist { model, ..first };
            let task = Task {
                alloc,
                case,
                subject,
                first,
                second,
            };
            task.tell_models(told)
        }
    }
}

/// Tells of the places at which the differences of a case begin, whose report they are. Fails where
/// memory is refused, and then some aren't told.
pub fn locate_in_case<'x, T: Diagnostics>(
    alloc: Global,
    case: &'x Case<'x>,
    differences: &'x Differences,
    told: &mut T,
) -> Result<(), AllocError> {
    tell_case(alloc, case, Subject::Differences(differences), told)
}

/// Tells up to where the netlists of a case are known to be equal, below the outputs that a run of
/// it left undecided, as far as they are told by words and names. Fails where memory is refused,
/// and then nothing is told.
pub fn border_in_case<'x, T: Diagnostics>(
    alloc: Global,
    case: &'x Case<'x>,
    left: &'x Left,
    told: &mut T,
) -> Result<(), AllocError> {
    tell_case(alloc, case, Subject::Left(left), told)
}
