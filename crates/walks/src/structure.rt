// Refusals 6, 7 and 8 of nodes in words: each node but the root is used once, no node is higher than the limit, and each variable
// has a binder or is an input. The walks go down from the root, from a node to its children, whose numbers are below. What a
// field holds is told by the table's row of the node's kind; each arm of a walk's match reads the row of the kind that it names, so
// that the compiler folds the read, and hands it to one function, which goes field by field. A place is a node's number or NOWHERE.
ghost use Rattle.std.specs.Prelude.{◌≡◌, false, [], ◌∷◌, ◌≤◌, ◌<◌, ◌+◌, ◌-◌, get_or, length, eqb};
ghost use Rattle.std.proofs.Math.Option.{none};
ghost use Rattle.lambdamix.specs.Limits.{max_nodes, max_height};
ghost use Rattle.lambdamix.specs.Falling.{below};
ghost use Rattle.lambdamix.specs.Refusal.{first_failing, refused_at, or_else};
ghost use Rattle.lambdamix.specs.Structure.{occurrences, member};
ghost use Rattle.script.specs.Kinds.{is_child};
ghost use Rattle.script.specs.Verdicts.{found_at, refusal_of};
ghost use Rattle.script.specs.Words.{word_a, word_b, word_c, columns_in};
ghost use Rattle.walks.specs.Walks.{kept_if, row_children, word_children, uses_below, used_once_at, Counted, height_at, too_high_at, height_over, Height, HeightOver, HeightJoin, HeightNode, unbound_name, unbound_field, unbound_by, unbound_below, unbound_at, innermost, Entered, levels_in, input_count_in, Lower, Scoped, Structured};

use lambdamix::Use;
use script::cause::Cause;
use script::column::{at, put};
use script::kinds::{is_binder, is_child};
use script::limits::{FEW_NODES, MAX_HEIGHT, MAX_NODES};
use script::search::first_failing;
use script::word::{field_a, field_b, field_c, kind, node_word};
use script::{Name, NodeNumber, Refusal, Row, by_kind};

// The highest tree.
const HIGHEST: u32 = MAX_HEIGHT as u32;

// The places that a search for unbound variables answers with: none, that the tree has too many levels, and any other stands one higher than it is.
// One number, since an enum would go through memory at each call: docs/SPEED.md, 2 and 9.
const NOWHERE: u16 = 65535;

const TOO_HIGH: u16 = 0;

// A level, above the number of inputs: a search is handed in one number how many levels are allowed below a node and how many inputs there are, so that
// all that it takes travels in registers: docs/SPEED.md, 9.
const LEVEL: u32 = 65536;

// How many of the names around a node are looked at together: docs/SPEED.md, 10.
const STRIDE: usize = 32;

// One more use of a node, counted up to two.
fn count_one(counts: &mut [u8], m: NodeNumber)
    ensures { Counted (λ j. occurrences j (m.0 ∷ [])) counts.old counts.new }
{
    let i = m.0 as usize;
    let n = at(counts, i, 0);
    if n < 2 {
        put(counts, i, n + 1);
    }
}

// A field counts where it is a child.
fn count_field(counts: &mut [u8], u: Use, m: u16)
    ensures { Counted (λ j. occurrences j (kept_if (is_child u) m [])) counts.old counts.new }
{
    if is_child(u) {
        count_one(counts, NodeNumber(m));
    }
}

// The fields that are children by a row.
fn count_fields(counts: &mut [u8], w: u64, row: Row)
    ensures { Counted (λ j. occurrences j (row_children row (word_a w) (word_b w) (word_c w))) counts.old counts.new }
{
    let Row(u, v, t) = row;
    count_field(counts, u, field_a(w));
    count_field(counts, v, field_b(w));
    count_field(counts, t, field_c(w));
}

// The children of a node, each counted once, by the row of its kind. An arm for each kind: docs/SPEED.md, 7.
#[tactic(auto, unfolding(crate::specs::Walks::word_children))]
fn count_node(counts: &mut [u8], w: u64)
    ensures { Counted (λ j. occurrences j (word_children w)) counts.old counts.new }
{
    by_kind!(kind(w), count_fields(counts, w), {})
}

fn count_nodes(nodes: &[u64], counts: &mut [u8], count: u16)
    ensures { Counted (uses_below (columns_in nodes.now) count) counts.old counts.new }
{
    for i in 0..count {
        count_node(counts, node_word(nodes, NodeNumber(i)));
    }
}

// The first of the n nodes whose count is not one.
fn first_not_one(counts: &[u8], n: usize) -> Option<usize>
    ensures { found_at result ≡ first_failing (λ j. eqb (get_or counts.now j 0) 1) 0 n }
{
    first_failing(n, |j| at(counts, j, 0) == 1)
}

// The first node but the root that is used never or twice, by counts of at most N nodes.
#[tactic(auto, unfolding(lambdamix::specs::Limits::max_nodes))]
fn first_misused_of<const N: usize>(nodes: &[u64], count: u16) -> Option<usize>
    requires count_le_N { (1 ≤ count) × (count ≤ N) }
    requires N_le_max_nodes { N ≤ max_nodes }
    ensures { found_at result ≡ first_failing (used_once_at (columns_in nodes.now) count) 0 (count - 1) }
{
    let mut counts = [0u8; N];
    count_nodes(nodes, &mut counts, count);
    first_not_one(&counts, (count - 1) as usize)
}

// Refusal 6. Few nodes have short counts: docs/SPEED.md, 2.
#[tactic(auto, unfolding(lambdamix::specs::Limits::max_nodes))]
fn first_misused(nodes: &[u64], count: u16) -> Option<usize>
    requires { (1 ≤ count) × (count ≤ max_nodes) }
    ensures { found_at result ≡ first_failing (used_once_at (columns_in nodes.now) count) 0 (count - 1) }
{
    if (count as usize) <= FEW_NODES {
        return first_misused_of::<FEW_NODES>(nodes, count);
    }
    first_misused_of::<MAX_NODES>(nodes, count)
}

// The answers of two walks of heights: the higher height, or the lower place.
fn height_join(p: u32, q: u32) -> u32
    ensures { HeightJoin p q result }
{
    let least = p.min(q);
    if least <= HIGHEST { p.max(q) } else { least }
}

// Node i over what was answered of its children.
fn height_over(i: NodeNumber, p: u32) -> u32
    ensures { HeightNode i.0 p result }
{
    if p < HIGHEST {
        return p + 1;
    }
    let own = HIGHEST + 1 + (i.0 as u32);
    if HIGHEST < p && p < own {
        return p;
    }
    own
}

// The height of node i's tree if no node of it is too high, else HIGHEST + 1 plus the lowest node that is. One number: docs/SPEED.md, 2.
#[cycle(heights)]
fn height(nodes: &&[u64], i: NodeNumber) -> u32
    ensures { Height result (height_at (columns_in nodes.now.now) i.0) (too_high_at (columns_in nodes.now.now) i.0) }
{
    let p = height_children(nodes, i, node_word(*nodes, i));
    height_over(i, p)
}

// The children of node i, whose word is w, by the row of its kind. An arm for each kind: docs/SPEED.md, 7.
#[cycle(heights)]
#[tactic(auto, unfolding(crate::specs::Walks::word_children))]
fn height_children(nodes: &&[u64], i: NodeNumber, w: u64) -> u32
    ensures { HeightOver (columns_in nodes.now.now) i.0 (word_children w) result }
{
    by_kind!(kind(w), height_fields(nodes, i, w), 0)
}

// The fields that are children by a row.
#[cycle(heights)]
fn height_fields(nodes: &&[u64], i: NodeNumber, w: u64, row: Row) -> u32
    ensures { HeightOver (columns_in nodes.now.now) i.0 (row_children row (word_a w) (word_b w) (word_c w)) result }
{
    let Row(u, v, t) = row;
    let p = height_field(nodes, i, u, field_a(w));
    let q = height_field(nodes, i, v, field_b(w));
    height_join(p, height_join(q, height_field(nodes, i, t, field_c(w))))
}

// A field is walked where it is a child.
#[cycle(heights)]
fn height_field(nodes: &&[u64], i: NodeNumber, u: Use, f: u16) -> u32
    ensures { HeightOver (columns_in nodes.now.now) i.0 (kept_if (is_child u) f []) result }
{
    if is_child(u) {
        return height_child(nodes, i, NodeNumber(f));
    }
    0
}

// A child of node i: one whose number is below is walked.
#[cycle(heights)]
fn height_child(nodes: &&[u64], i: NodeNumber, m: NodeNumber) -> u32
    ensures { Height result (below i.0 1 (height_at (columns_in nodes.now.now)) m.0) (below i.0 none (too_high_at (columns_in nodes.now.now)) m.0) }
{
    if m.0 < i.0 {
        return height(nodes, m);
    }
    1
}

// Whether a name is among the first `end` of a list, where it is not among the first `from`: each of the others is looked at, without a branch, where
// `contains` would have one for each: docs/SPEED.md, 10.
fn is_among(names: &[u16; MAX_HEIGHT], from: usize, end: usize, x: Name) -> bool
    requires from_le_end { (from ≤ end) × (end ≤ max_height) }
    requires false_value { false ≡ member x.0 (innermost names.now from) }
    ensures { result ≡ member x.0 (innermost names.now end) }
{
    let mut found = false;
    for d in from..end {
        if names[d] == x.0 {
            found = true;
        }
    }
    found
}

// Whether a name is among those of the enclosing binders, which are the first of the list: the search ends behind the names in which it is found.
fn is_bound(names: &[u16; MAX_HEIGHT], depth: usize, x: Name) -> bool
    requires { depth ≤ max_height }
    ensures { result ≡ member x.0 (innermost names.now depth) }
{
    for d in (0..depth).step_by(STRIDE) {
        if is_among(names, d, depth.min(d + STRIDE), x) {
            return true;
        }
    }
    false
}

// The lower of a place and node i, if its name is no input's and has no binder.
fn scope_name(
    names: &[u16; MAX_HEIGHT],
    depth: usize,
    limits: u32,
    lowest: u16,
    i: NodeNumber,
    x: Name,
) -> u16
    requires { (depth ≤ max_height) × (i.0 < 65534) }
    ensures { Lower lowest (unbound_name (input_count_in limits) (innermost names.now depth) x.0 i.0) result }
{
    if (x.0 as u32) < limits % LEVEL || is_bound(names, depth, x) {
        return lowest;
    }
    lowest.min(i.0 + 1)
}

// A binder's name is put after those around it. How many names are around the children.
fn put_binder(names: &mut [u16; MAX_HEIGHT], depth: usize, u: Use, f: u16) -> usize
    requires { (depth < max_height) × (max_height ≤ length names.old) }
    ensures { Entered u f depth names.old names.new result }
{
    if is_binder(u) {
        let inner = depth + 1;
        let x = Name(f);
        names[depth] = x.0;
        return inner;
    }
    depth
}

// The lower of a place and the lowest unbound variable of node i's tree, by the row of its kind, if the tree has no more levels than are allowed.
// An arm for each kind: docs/SPEED.md, 7.
#[cycle(scopes)]
fn scope(
    nodes: &&[u64],
    limits: u32,
    names: &mut [u16; MAX_HEIGHT],
    depth: usize,
    lowest: u16,
    i: NodeNumber,
) -> u16
    requires i_bound { (i.0 < 65534) × (max_height ≤ length names.old) }
    requires limits_bound { depth + 1 + levels_in limits ≤ max_height }
    ensures { Scoped (height_at (columns_in nodes.now.now) i.0) (levels_in limits + 1) (unbound_at (columns_in nodes.now.now) (input_count_in limits) i.0 (innermost names.old depth)) depth lowest names.old names.new result }
{
    let w = node_word(*nodes, i);
    by_kind!(
        kind(w),
        scope_fields(nodes, limits, names, depth, lowest, i, w),
        lowest
    )
}

// The fields by a row: a binder's name is around the children after it.
#[cycle(scopes)]
fn scope_fields(
    nodes: &&[u64],
    limits: u32,
    names: &mut [u16; MAX_HEIGHT],
    depth: usize,
    lowest: u16,
    i: NodeNumber,
    w: u64,
    row: Row,
) -> u16
    requires i_bound { (i.0 < 65534) × (max_height ≤ length names.old) }
    requires limits_bound { depth + 1 + levels_in limits ≤ max_height }
    ensures { Scoped (height_over (columns_in nodes.now.now) i.0 (row_children row (word_a w) (word_b w) (word_c w))) (levels_in limits) (unbound_by (input_count_in limits) (unbound_below (columns_in nodes.now.now) (input_count_in limits) i.0) i.0 (innermost names.old depth) row (word_a w) (word_b w) (word_c w)) depth lowest names.old names.new result }
{
    let Row(u, v, t) = row;
    let a = field_a(w);
    let inner = put_binder(names, depth, u, a);
    let p = scope_field(nodes, limits, names, inner, lowest, i, u, a);
    let q = scope_field(nodes, limits, names, inner, p, i, v, field_b(w));
    scope_field(nodes, limits, names, inner, q, i, t, field_c(w))
}

// A field by its use: a name is tested, a child is walked.
#[cycle(scopes)]
fn scope_field(
    nodes: &&[u64],
    limits: u32,
    names: &mut [u16; MAX_HEIGHT],
    depth: usize,
    lowest: u16,
    i: NodeNumber,
    u: Use,
    f: u16,
) -> u16
    requires i_bound { (i.0 < 65534) × (max_height ≤ length names.old) }
    requires limits_bound { depth + levels_in limits ≤ max_height }
    ensures { Scoped (height_over (columns_in nodes.now.now) i.0 (kept_if (is_child u) f [])) (levels_in limits) (unbound_field (input_count_in limits) (unbound_below (columns_in nodes.now.now) (input_count_in limits) i.0) i.0 (innermost names.old depth) u f) depth lowest names.old names.new result }
{
    match u {
        Use::Name => scope_name(names, depth, limits, lowest, i, Name(f)),
        Use::Child => scope_child(nodes, limits, names, depth, lowest, i, NodeNumber(f)),
        Use::Nothing | Use::Binder | Use::ParameterType | Use::Operation => lowest,
    }
}

// A child of node i: where no level is allowed below i, the tree has too many; else a child whose number is below is walked.
#[cycle(scopes)]
fn scope_child(
    nodes: &&[u64],
    limits: u32,
    names: &mut [u16; MAX_HEIGHT],
    depth: usize,
    lowest: u16,
    i: NodeNumber,
    m: NodeNumber,
) -> u16
    requires i_bound { (i.0 < 65534) × (max_height ≤ length names.old) }
    requires limits_bound { depth + levels_in limits ≤ max_height }
    ensures { Scoped (below i.0 1 (height_at (columns_in nodes.now.now)) m.0) (levels_in limits) (unbound_below (columns_in nodes.now.now) (input_count_in limits) i.0 m.0 (innermost names.old depth)) depth lowest names.old names.new result }
{
    if limits < LEVEL {
        return TOO_HIGH;
    }
    if m.0 < i.0 {
        return scope(nodes, limits - LEVEL, names, depth, lowest, m);
    }
    lowest
}

// Refusals 7 and 8, after 6: a search that meets too many levels is followed by the walk of heights.
fn tree_refusal(nodes: &[u64], inputs: u16, root: NodeNumber) -> Result<(), Refusal>
    requires { root.0 < 65534 }
    ensures { refusal_of result ≡ or_else (refused_at 7 (too_high_at (columns_in nodes.now) root.0)) (refused_at 8 (unbound_at (columns_in nodes.now) inputs root.0 [])) }
{
    let mut names = [0u16; MAX_HEIGHT];
    let limits = LEVEL * (HIGHEST - 1) + (inputs as u32);
    let place = scope(&nodes, limits, &mut names, 0, NOWHERE, root);
    if place == NOWHERE {
        return Ok(());
    }
    if place == TOO_HIGH {
        let height = height(&nodes, root);
        return Err(Cause::TreeTooHigh.at((height - (HIGHEST + 1)) as usize));
    }
    Err(Cause::UnboundVariable.at((place - 1) as usize))
}

// Refusals 6, 7 and 8 of as many nodes, each of which fits; what it answers of other words says nothing.
pub fn structure_refusal(nodes: &[u64], inputs: u16, count: usize) -> Result<(), Refusal>
    ensures { Structured nodes.now inputs count result }
{
    if count < 1 || MAX_NODES < count {
        return Ok(());
    }
    let n = count as u16;
    if let Some(place) = first_misused(nodes, n) {
        return Err(Cause::NotUsedOnce.at(place));
    }
    tree_refusal(nodes, inputs, NodeNumber(n - 1))
}
