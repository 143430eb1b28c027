//! The laws of the machine. Each function is a fact about the definitions, with nothing to run.
ghost use Rattle.eqc_core.specs.Laws.{LookKeeps, AnnounceKeeps, RecheckKeeps, UpKeeps, DownKeeps, SwapCellKeeps, ScanOneKeeps, SplitKeeps, JoinKeeps, LockKeeps, LockLostKeeps, UnlockKeeps, ClaimKeeps, ClaimLostKeeps, UnclaimKeeps, WriteNodeKeeps, ReadNodeKeeps, ReclaimKeeps, SwapBoxKeeps, LookBoxKeeps, RunIsLawful, NoSlotGivenAgain, StepsKeepTrees, StepsHaveRoom};
ghost use Rattle.eqc_core.specs.Facts.{NoCountWraps, TreesAreOne, ViewsAreBounded, HeldIsCounted, ConfirmedIsCounted, NamesAreTabled, ScansKeepNames, ScansLeaveFew, SplitsComeLast, NothingOutIsAlone, WrittenFieldsAreRead, TableIsThere, ClaimedIsFree, ReclaimedIsFree};
ghost use Rattle.eqc_core.specs.Collecting.{LeastIsDead, TurnRaises, TurnsEmpty, NoDeadIsEmpty, EmptyIsFree, TriesAreSteps, StripesAreSteps};

/// Every state of every run is lawful, and the count of a confirmed name is at least 2.
///
/// A run begins with the empty forest, or with one that has a literal for each of some variables.
/// It may have up to 1,048,576 workers, 1,048,574 slots, 65,536 variables and 1,048,576 cells.
pub fn run_is_lawful()
    ensures { RunIsLawful }
{}

/// No slot is given while anything names it, at any event of any run.
///
/// A slot that is claimed has no owner, one that is taken back has its table as its only owner, and
/// no confirmed announcement names either.
pub fn no_slot_given_again()
    ensures { NoSlotGivenAgain }
{}

/// A look at a cell leaves the state lawful.
pub fn look_keeps()
    ensures { LookKeeps }
{}

/// A store to an announcement word leaves the state lawful.
pub fn announce_keeps()
    ensures { AnnounceKeeps }
{}

/// A second look at a cell leaves the state lawful: what it confirms is supported by the cell.
pub fn recheck_keeps()
    ensures { RecheckKeeps }
{}

/// One more count of a name that is known to stay leaves the state lawful.
pub fn up_keeps()
    ensures { UpKeeps }
{}

/// One count less of a held name leaves the state lawful.
pub fn down_keeps()
    ensures { DownKeeps }
{}

/// A swap of a cell leaves the state lawful: the old result is retired before any scan.
pub fn swap_cell_keeps()
    ensures { SwapCellKeeps }
{}

/// A step of a scan leaves the state lawful, whatever the scanning worker itself announces.
pub fn scan_one_keeps()
    ensures { ScanOneKeeps }
{}

/// A split leaves the state lawful.
pub fn split_keeps()
    ensures { SplitKeeps }
{}

/// A join leaves the state lawful.
pub fn join_keeps()
    ensures { JoinKeeps }
{}

/// A stripe's lock that is won, and its table taken from home, leave the state lawful.
pub fn lock_keeps()
    ensures { LockKeeps }
{}

/// A lock that is not won leaves the state lawful.
pub fn lock_lost_keeps()
    ensures { LockLostKeeps }
{}

/// A stripe that is put home, with its entries in any order, leaves the state lawful.
pub fn unlock_keeps()
    ensures { UnlockKeeps }
{}

/// A free slot that is claimed leaves the state lawful.
pub fn claim_keeps()
    ensures { ClaimKeeps }
{}

/// A claim that is not won leaves the state lawful.
pub fn claim_lost_keeps()
    ensures { ClaimLostKeeps }
{}

/// A draft that is given up leaves the state lawful.
pub fn unclaim_keeps()
    ensures { UnclaimKeeps }
{}

/// A node that is written into its draft and its stripe's table leaves the state lawful.
pub fn write_node_keeps()
    ensures { WriteNodeKeeps }
{}

/// A held node that is read leaves the state lawful.
pub fn read_node_keeps()
    ensures { ReadNodeKeeps }
{}

/// A node that is taken back, since its table alone owns it, leaves the state lawful.
pub fn reclaim_keeps()
    ensures { ReclaimKeeps }
{}

/// A swap of a box leaves the state lawful: the names of both words change hands.
pub fn swap_box_keeps()
    ensures { SwapBoxKeeps }
{}

/// A look at a box leaves the state lawful.
pub fn look_box_keeps()
    ensures { LookBoxKeeps }
{}

/// A step leaves the tree of each slot that is in a table before and after it.
pub fn steps_keep_trees()
    ensures { StepsKeepTrees }
{}

/// From 2^39 names held at most, no step leads beyond the 2^40 that a worker may hold.
pub fn steps_have_room()
    ensures { StepsHaveRoom }
{}

/// No count wraps its word.
pub fn no_count_wraps()
    ensures { NoCountWraps }
{}

/// Each constant and each tabled slot stands for one ordered reduced tree, and no two for the same.
pub fn trees_are_one()
    ensures { TreesAreOne }
{}

/// A scan has noted no more names than it has read words, and a stripe in hand is below 16.
pub fn views_are_bounded()
    ensures { ViewsAreBounded }
{}

/// The count of a held name is above 0.
pub fn held_is_counted()
    ensures { HeldIsCounted }
{}

/// The count of a confirmed name is at least 2.
pub fn confirmed_is_counted()
    ensures { ConfirmedIsCounted }
{}

/// Names held, retired, confirmed, read last and in cells and boxes are in a table, and so are the
/// children of such names, what is supported, and whatever an active worker knows to stay.
pub fn names_are_tabled()
    ensures { NamesAreTabled }
{}

/// A step of a scan makes retired names held, and changes no other name.
pub fn scans_keep_names()
    ensures { ScansKeepNames }
{}

/// After a whole scan at most as many names are retired as there are announcement words.
pub fn scans_leave_few()
    ensures { ScansLeaveFew }
{}

/// Worker 0 may split off the next number that was never given, and its view comes behind the
/// others.
pub fn splits_come_last()
    ensures { SplitsComeLast }
{}

/// Where no number is out of worker 0's view, no other worker is active.
pub fn nothing_out_is_alone()
    ensures { NothingOutIsAlone }
{}

/// The word of a node that may be written has the variable and the children that were given.
pub fn written_fields_are_read()
    ensures { WrittenFieldsAreRead }
{}

/// The table of a stripe whose lock is 0 is at home.
pub fn table_is_there()
    ensures { TableIsThere }
{}

/// A slot that a claim wins has no owner, no draft and no table, and no confirmed announcement
/// names it.
pub fn claimed_is_free()
    ensures { ClaimedIsFree }
{}

/// A slot that is taken back is owned by its table alone, and no confirmed announcement names it.
pub fn reclaimed_is_free()
    ensures { ReclaimedIsFree }
{}

/// Where worker 0 is alone and holds nothing, a tabled slot of the least variable has the count 1.
pub fn least_is_dead()
    ensures { LeastIsDead }
{}

/// A whole turn over the tables raises the least variable.
pub fn turn_raises()
    ensures { TurnRaises }
{}

/// After as many turns as variables nothing is tabled.
pub fn turns_empty()
    ensures { TurnsEmpty }
{}

/// Where worker 0 is alone and holds nothing, and no tabled slot has the count 1, nothing is
/// tabled.
pub fn no_dead_is_empty()
    ensures { NoDeadIsEmpty }
{}

/// Where nothing is tabled, and worker 0 is alone and holds nothing, every count is 0.
pub fn empty_is_free()
    ensures { EmptyIsFree }
{}

/// A slot of the stripe in hand is tried by steps, after which worker 0 holds nothing again.
pub fn tries_are_steps()
    ensures { TriesAreSteps }
{}

/// A stripe is taken and put home by steps that leave worker 0 holding nothing.
pub fn stripes_are_steps()
    ensures { StripesAreSteps }
{}
