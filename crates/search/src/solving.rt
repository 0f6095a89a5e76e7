//! The search: it begins with the root, branches the open node of the least bound while branchings are granted, and
//! tells what its tree proves.

ghost use Rattle.std.specs.Prelude.{List, [], ◌∷◌, Bool, ◌≡◌, ◌+◌, ◌*◌, ◌<◌, ◌≤◌, ◌^◌, length, All};
ghost use Rattle.std.specs.Prelude.{IfOk, None, OnOk};
ghost use Rattle.rail_base.specs.declared.limits.TheConstants.{MAX_BRANCHINGS, MAX_NODES, MAX_ROUNDS};
ghost use Rattle.branch_tree.specs.Claims.{IsConcluded, open_leaves_of};
ghost use Rattle.branch_tree.specs.Regions.{IsOver};
ghost use Rattle.branch_tree.specs.Trees.{branchings_of};
ghost use Rattle.search.specs.declared.nodes.SearchNode.{SearchNode};
ghost use Rattle.search.specs.Questions.{AreAsked, AreOnlyAsked, AreTheSame, MayBeAsked, in_rounds};
ghost use Rattle.search.specs.Ends.{HasSearched, IsFoundBy, IsWithinLimits, found_by, made_or_open};
ghost use Rattle.search.specs.Frontiers.{IsNextAt, IsOpenAt};
ghost use Rattle.search.specs.Putting.{HasBranched, IsMade, IsNewLeaf, IsPut, IsUnderWay};
ghost use Rattle.search.specs.Nodes.{IsDivisionAt, IsNewNode, HasNextNumber, IsSearched, tree_nodes};
ghost use Rattle.search.specs.Offers.{IsOffered};
ghost use Rattle.search.specs.Conclusions.{IsSolved, conclusion_found, nodes_found, plan_found, plan_in};

use crate::evaluation::{EvaluationEnd, evaluate, is_below};
use crate::found::{Best, Found};
use crate::frontier::Frontier;
use crate::improving::improve;
use crate::nodes::{Division, NewNode, SearchNode};
use crate::rounds::advise;
use crate::work::Work;
use advisors::Advisor;
use branch_tree::{Multipliers, Node, Region, Relaxation, Tree};
use improvers::{Improver, NoImprover};
use rail_base::{Money, NoMemory};
use std::alloc::Global;

/// How far a search may go.
#[derive(Clone, Copy)]
pub struct Allowed {
    /// How many branchings may be made, at most 4,000.
    pub branchings: u32,
    /// In how many rounds the advisors may be asked at a node, at most 100.
    pub rounds: u8,
}

/// How a search is made.
#[derive(Clone, Copy)]
pub(crate) struct Terms<'a> {
    /// The allocator.
    pub alloc: Global,
    /// The region that is searched.
    pub root: &'a Region,
    /// How far the search may go.
    pub allowed: Allowed,
}

/// A search that is under way.
#[derive(Drop)]
struct Search {
    /// The nodes in preorder.
    nodes: Vec<SearchNode>,
    /// Those that may be branched, by rank.
    frontier: Frontier,
    /// The cheapest solution so far, the earliest of these.
    best: Option<Best>,
}

/// Finds a solution of least cost in a region by branch and bound, or how little one may cost where the branchings that
/// are granted don't suffice.
///
/// `root` is over the trips and the catalogue of the problem. `grant` is how many branchings may be made, at most
/// 4,000, and `rounds` in how many rounds the advisors may be asked at a node, at most 100. Each advisor was asked at
/// most 2^63 times.
///
/// The answer is true of all solutions in the root and proved by its tree, whatever the advisors propose. `Bounded`
/// comes exactly where all branchings that are granted are made and a leaf is open: its bound is below the cost of the
/// best solution, or there is none yet. Else it is `Optimal` where a solution was found, and `Infeasible` where none
/// was: then there is none in the root.
///
/// Afterwards an advisor of the same identity stands at each place, whatever the answer is, and none was asked fewer
/// times than before. One that had quit stays so and is not asked, and none is asked once it has quit, as its call
/// wants. Each was asked, in all, at most `rounds` times the nodes that were made, or, after the error, `rounds` times
/// the nodes that may be made. Where there is no error and there are rounds, one that has not quit was asked, in all,
/// at least as often as there are branchings and leaves that are open at the end.
///
/// The error is want of memory alone, here or in an advisor. What the problem means is as before after any answer.
pub fn solve<R: Relaxation>(
    alloc: Global,
    problem: &mut R,
    root: &Region,
    grant: u32,
    rounds: u8,
    advisors: &mut Vec<Box<dyn Advisor>>,
) -> Result<Found, NoMemory>
    requires over { IsOver (R.meanings (R.problem problem.old)).trips
        (R.meanings (R.problem problem.old)).catalogue root.now }
    requires grant { grant ≤ MAX_BRANCHINGS }
    requires rounds { rounds ≤ MAX_ROUNDS }
    requires asked { All (λ advisor. asked advisor ≤ 2 ^ 63) advisors.old.items }

    // The problem, and what was found.
    ensures same { R.problem problem.new ≡ R.problem problem.old }
    ensures solved { IfOk result (IsSolved (R.meanings (R.problem problem.old)) root.now grant) }
    ensures holds { IfOk result (λ found. IsConcluded (R.meanings (R.problem problem.old)) root.now
        (conclusion_found found)) }

    // The advisors: that one of the same identity stands at each place, and how often it was asked.
    ensures advisors { AreTheSame advisors.old.items advisors.new.items identity }
    ensures asked { AreAsked advisors.old.items advisors.new.items asked has_quit 0 (rounds * (2 * grant + 1)) }
    ensures counted { IfOk result (λ found. AreAsked advisors.old.items advisors.new.items asked has_quit
        (in_rounds rounds (branchings_of (nodes_found found) + open_leaves_of (plan_found found) (nodes_found found)))
        (rounds * (2 * branchings_of (nodes_found found) + 1))) }
{
    let allowed = Allowed {
        branchings: grant,
        rounds,
    };
    solve_with(alloc, problem, root, allowed, &mut NoImprover, advisors)
}

/// Finds a solution of least cost in a region by branch and bound, as `solve` does, and asks an improver about each
/// node too: after its evaluation under what it inherits, and before the rounds of advice, while the node is open.
///
/// Nothing is asked of the improver. Multipliers that it proposes are tried where they fit, picks are offered where
/// they are solutions in the root, and its cut is taken where it is proper. The conditions are those of `solve`, and
/// all that is said of its answer and of the advisors holds. The error is want of memory alone, here, in the improver
/// or in an advisor.
pub fn solve_with<R: Relaxation, I: Improver>(
    alloc: Global,
    problem: &mut R,
    root: &Region,
    allowed: Allowed,
    improver: &mut I,
    advisors: &mut Vec<Box<dyn Advisor>>,
) -> Result<Found, NoMemory>
    requires over { IsOver (R.meanings (R.problem problem.old)).trips
        (R.meanings (R.problem problem.old)).catalogue root.now }
    requires grant { allowed.branchings ≤ MAX_BRANCHINGS }
    requires rounds { allowed.rounds ≤ MAX_ROUNDS }
    requires asked { All (λ advisor. asked advisor ≤ 2 ^ 63) advisors.old.items }

    // The problem, and what was found.
    ensures same { R.problem problem.new ≡ R.problem problem.old }
    ensures solved { IfOk result (IsSolved (R.meanings (R.problem problem.old)) root.now allowed.branchings) }
    ensures holds { IfOk result (λ found. IsConcluded (R.meanings (R.problem problem.old)) root.now
        (conclusion_found found)) }

    // The advisors: that one of the same identity stands at each place, and how often it was asked.
    ensures advisors { AreTheSame advisors.old.items advisors.new.items identity }
    ensures asked { AreAsked advisors.old.items advisors.new.items asked has_quit 0
        (allowed.rounds * (2 * allowed.branchings + 1)) }
    ensures counted { IfOk result (λ found. AreAsked advisors.old.items advisors.new.items asked has_quit
        (in_rounds allowed.rounds (branchings_of (nodes_found found)
        + open_leaves_of (plan_found found) (nodes_found found)))
        (allowed.rounds * (2 * branchings_of (nodes_found found) + 1))) }
{
    let terms = Terms {
        alloc,
        root,
        allowed,
    };
    let search = run(&terms, problem, improver, advisors)?;
    let found = search.finish(alloc)?;
    Ok(found)
}

/// Branches open nodes until none is left or so many branchings are made as are granted. The error is want of memory.
fn run<R: Relaxation, I: Improver>(
    terms: &Terms<'_>,
    problem: &mut R,
    improver: &mut I,
    advisors: &mut Vec<Box<dyn Advisor>>,
) -> Result<Search, NoMemory>
    requires over { IsOver (R.meanings (R.problem problem.old)).trips
        (R.meanings (R.problem problem.old)).catalogue terms.now.root.now }
    requires allowed { IsWithinLimits terms.now.allowed }
    requires asked { All (λ advisor. asked advisor ≤ 2 ^ 63) advisors.old.items }
    ensures same { R.problem problem.new ≡ R.problem problem.old }
    ensures accepted { OnOk result (R.IsWellPosed (R.problem problem.old)) }
    ensures searched { IfOk result (λ search. HasSearched (R.meanings (R.problem problem.old)) terms.now.root.now
        terms.now.allowed.branchings (plan_in search.best) search.nodes.items) }
    ensures advisors { AreOnlyAsked advisors.old.items advisors.new.items identity asked has_quit
        (terms.now.allowed.rounds * (2 * terms.now.allowed.branchings + 1)) }
    ensures counted { IfOk result (λ search. AreAsked advisors.old.items advisors.new.items asked has_quit
        (in_rounds terms.now.allowed.rounds (made_or_open (plan_in search.best) (tree_nodes search.nodes.items)))
        (terms.now.allowed.rounds * (2 * branchings_of (tree_nodes search.nodes.items) + 1))) }
{
    let mut search = Search::begin(terms, problem, improver, advisors)?;
    for _branching in 0..terms.allowed.branchings {
        let Some(place) = search.frontier.next_open(&search.nodes, &search.best) else {
            return Ok(search);
        };
        search.branch(terms, problem, place, improver, advisors)?;
    }
    Ok(search)
}

impl Search {
    /// A search over the root, which is its one node. The error is want of memory.
    fn begin<R: Relaxation, I: Improver>(
        terms: &Terms<'_>,
        problem: &mut R,
        improver: &mut I,
        advisors: &mut Vec<Box<dyn Advisor>>,
    ) -> Result<Search, NoMemory>
        requires over { IsOver (R.meanings (R.problem problem.old)).trips
            (R.meanings (R.problem problem.old)).catalogue terms.now.root.now }
        requires room { MayBeAsked advisors.old.items asked terms.now.allowed.rounds }
        ensures same { R.problem problem.new ≡ R.problem problem.old }
        ensures accepted { OnOk result (R.IsWellPosed (R.problem problem.old)) }
        ensures under_way { IfOk result (IsUnderWay (R.meanings (R.problem problem.old)) terms.now.root.now) }
        ensures made { IfOk result (λ search. (node : SearchNode) × (search.nodes.items ≡ node ∷ []) ×
            IsMade has_quit has_answered (R.meanings (R.problem problem.old)) terms.now.root.now
            terms.now.allowed.rounds advisors.old.items advisors.new.items None (plan_in search.best)
            terms.now.root.now [] 0 node) }
        ensures advisors { AreOnlyAsked advisors.old.items advisors.new.items identity asked has_quit
            terms.now.allowed.rounds }
        ensures counted { IfOk result (λ search. AreAsked advisors.old.items advisors.new.items asked has_quit
            (in_rounds terms.now.allowed.rounds (made_or_open (plan_in search.best) (tree_nodes search.nodes.items)))
            terms.now.allowed.rounds) }
    {
        let inherited = Multipliers::new(terms.alloc)?;
        let node = NewNode {
            place: 0,
            number: 0,
            region: terms.root.copy(terms.alloc)?,
            inherited: &inherited,
        };
        let mut search = Search {
            nodes: Vec::new(terms.alloc),
            frontier: Frontier::new(terms.alloc),
            best: None,
        };
        search.put_node(terms, problem, node, improver, advisors)?;
        Ok(search)
    }

    /// Branches the open node of the least bound, of these the one with the least number, which is at a place. Its left
    /// side is made first. The error is want of memory.
    fn branch<R: Relaxation, I: Improver>(
        &mut self,
        terms: &Terms<'_>,
        problem: &mut R,
        place: usize,
        improver: &mut I,
        advisors: &mut Vec<Box<dyn Advisor>>,
    ) -> Result<(), NoMemory>
        requires accepted { R.IsWellPosed (R.problem problem.old) }
        requires under_way { IsUnderWay (R.meanings (R.problem problem.old)) terms.now.root.now self.old }
        requires few { length self.old.nodes.items < MAX_NODES }
        requires next { IsNextAt (plan_in self.old.best) self.old.nodes.items place }
        requires room { MayBeAsked advisors.old.items asked (2 * terms.now.allowed.rounds) }
        ensures same { R.problem problem.new ≡ R.problem problem.old }
        ensures advisors { AreOnlyAsked advisors.old.items advisors.new.items identity asked has_quit
            (2 * terms.now.allowed.rounds) }
        ensures branched { OnOk result (HasBranched asked has_quit has_answered (R.meanings (R.problem problem.old))
            terms.now advisors.old.items advisors.new.items self.old self.new place) }
    {
        let division = self.divide_at(terms.alloc, problem, place)?;
        let Division {
            cut,
            left,
            right,
            multipliers,
        } = division;
        self.nodes[place] = SearchNode::Fixed(Node::Branch(cut));
        let first = NewNode {
            place: place + 1,
            number: self.nodes.len() as u32,
            region: left,
            inherited: &multipliers,
        };
        self.put_node(terms, problem, first, improver, advisors)?;
        let second = NewNode {
            place: place + 2,
            number: self.nodes.len() as u32,
            region: right,
            inherited: &multipliers,
        };
        self.put_node(terms, problem, second, improver, advisors)
    }

    /// Makes the next node, puts it at its place, and enters it in the frontier. The error is want of memory.
    fn put_node<R: Relaxation, I: Improver>(
        &mut self,
        terms: &Terms<'_>,
        problem: &mut R,
        node: NewNode<'_>,
        improver: &mut I,
        advisors: &mut Vec<Box<dyn Advisor>>,
    ) -> Result<(), NoMemory>
        requires node { IsNewNode (R.meanings (R.problem problem.old)) terms.now.root.now node }
        requires next { HasNextNumber self.old.nodes.items node }
        requires room { MayBeAsked advisors.old.items asked terms.now.allowed.rounds }
        ensures same { R.problem problem.new ≡ R.problem problem.old }
        ensures accepted { OnOk result (R.IsWellPosed (R.problem problem.old)) }
        ensures offered { OnOk result (IsOffered (R.meanings (R.problem problem.old)) terms.now.root.now
            (plan_in self.old.best) (plan_in self.new.best)) }
        ensures put { OnOk result (IsPut (R.meanings (R.problem problem.old)) node.entry self.old self.new
            (IsMade has_quit has_answered (R.meanings (R.problem problem.old)) terms.now.root.now
            terms.now.allowed.rounds advisors.old.items advisors.new.items (plan_in self.old.best)
            (plan_in self.new.best) node.entry.region node.entry.inherited.now node.entry.number)
            (AreAsked advisors.old.items advisors.new.items asked has_quit (in_rounds terms.now.allowed.rounds 1)
            terms.now.allowed.rounds)) }
        ensures advisors { AreOnlyAsked advisors.old.items advisors.new.items identity asked has_quit
            terms.now.allowed.rounds }
    {
        let place = node.place;
        let made = make_node(terms, problem, node, &mut self.best, improver, advisors)?;
        self.nodes.insert(place, made)?;
        self.frontier.enter(&self.nodes[place])
    }

    /// Divides the open node at a place.
    fn divide_at<R: Relaxation>(
        &self,
        alloc: Global,
        problem: &R,
        place: usize,
    ) -> Result<Division, NoMemory>
        requires accepted { R.IsWellPosed (R.problem problem.now) }
        requires searched { (root : List (List Bool)) ×
            IsSearched (R.meanings (R.problem problem.now)) root (plan_in self.now.best) self.now.nodes.items }
        requires open { IsOpenAt (plan_in self.now.best) self.now.nodes.items place }
        ensures { IfOk result
            (IsDivisionAt (R.meanings (R.problem problem.now)) (plan_in self.now.best) self.now.nodes.items place) }
    {
        let SearchNode::Pending(node) = &self.nodes[place] else {
            unreachable!()
        };
        let division = node.divide(alloc, problem.catalogue())?;
        Ok(division)
    }

    /// What was found. The error is want of memory.
    fn finish(self, alloc: Global) -> Result<Found, NoMemory>
        requires { length self.nodes.items ≤ MAX_NODES }
        ensures { IfOk result (IsFoundBy self.best (tree_nodes self.nodes.items)) }
    {
        let tree = into_tree(alloc, self.nodes)?;
        let least = tree.least_bound();
        Ok(found_of(least, self.best, tree))
    }
}

/// The tree of the nodes. The error is want of memory.
fn into_tree(alloc: Global, mut nodes: Vec<SearchNode>) -> Result<Tree, NoMemory>
    requires { length nodes.items ≤ MAX_NODES }
    ensures { IfOk result (λ tree. tree ≡ tree_nodes nodes.items) }
{
    // The nodes leave from the end, so the first one is put there.
    nodes.reverse();
    let mut tree = Tree::new(alloc)?;
    while let Some(node) = nodes.pop() {
        tree.push(node.into_tree_node())?;
    }
    Ok(tree)
}

/// What a tree proves with the least of its bounds and the best solution.
fn found_of(least: Option<Money>, best: Option<Best>, tree: Tree) -> Found
    ensures { result ≡ found_by least best tree }
{
    if let Some(bound) = least {
        if is_below(bound, &best) {
            return Found::Bounded { best, bound, tree };
        }
    }
    match best {
        Some(Best { picks, cost }) => Found::Optimal { picks, cost, tree },
        None => Found::Infeasible { tree },
    }
}

/// Makes a node of the search: evaluates its region with no multipliers and then under those that it inherits, and asks
/// the improver and then the advisors about it. The error is want of memory.
fn make_node<R: Relaxation, I: Improver>(
    terms: &Terms<'_>,
    problem: &mut R,
    node: NewNode<'_>,
    best: &mut Option<Best>,
    improver: &mut I,
    advisors: &mut Vec<Box<dyn Advisor>>,
) -> Result<SearchNode, NoMemory>
    requires node { IsNewNode (R.meanings (R.problem problem.old)) terms.now.root.now node }
    requires room { MayBeAsked advisors.old.items asked terms.now.allowed.rounds }
    ensures same { R.problem problem.new ≡ R.problem problem.old }
    ensures accepted { OnOk result (R.IsWellPosed (R.problem problem.old)) }
    ensures offered { OnOk result (IsOffered (R.meanings (R.problem problem.old)) terms.now.root.now (plan_in best.old)
        (plan_in best.new)) }
    ensures leaf { IfOk result (IsNewLeaf (R.meanings (R.problem problem.old)) (plan_in best.new) node.entry
        (AreAsked advisors.old.items advisors.new.items asked has_quit (in_rounds terms.now.allowed.rounds 1)
        terms.now.allowed.rounds)) }
    ensures made { IfOk result (IsMade has_quit has_answered (R.meanings (R.problem problem.old)) terms.now.root.now
        terms.now.allowed.rounds advisors.old.items advisors.new.items (plan_in best.old) (plan_in best.new)
        node.entry.region node.entry.inherited.now node.entry.number) }
    ensures advisors { AreOnlyAsked advisors.old.items advisors.new.items identity asked has_quit
        terms.now.allowed.rounds }
{
    let NewNode {
        number,
        region,
        inherited,
        ..
    } = node;
    let none = Multipliers::new(terms.alloc)?;
    let outcome = evaluate(terms.alloc, problem, &region, none, best)?;
    match outcome {
        EvaluationEnd::Ended(ending) => Ok(SearchNode::Fixed(ending.into_leaf())),
        EvaluationEnd::Open(evaluation) => {
            let mut work = Work::new(terms.alloc, region, evaluation)?;
            work.inherit(terms.alloc, problem, inherited, best)?;
            improve(terms, problem, &mut work, number, best, improver)?;
            advise(
                terms.alloc,
                problem,
                &mut work,
                best,
                terms.allowed.rounds,
                advisors,
            )?;
            Ok(work.into_node(number, best))
        }
    }
}
