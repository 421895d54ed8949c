// The types of a script's nodes, found by recursion on falling node numbers, field by field as the table of tables says: refusals 9, 10
// and 11. An answer is one number, and the nodes are lent by a reference to a slice reference: a struct that is returned and a slice
// reference itself would go through memory (docs/SPEED.md, 2 and 8).
ghost use Rattle.std.specs.Prelude.{◌-◌, ◌≤◌, ◌≡◌, ◌&&◌, get_or, length, replicate, eqb};
ghost use Rattle.lambdamix.specs.Limits.{max_types};
ghost use Rattle.script.specs.Causes.{cause_number};
ghost use Rattle.script.specs.Kinds.{is_binder, is_child};
ghost use Rattle.script.specs.Verdicts.{refusal_of};
ghost use Rattle.script.specs.Words.{word_kind, word_a};
ghost use Rattle.annotation.specs.AnswerWords.{apply_answer, fault_answer, fix_answer, given_by, high_half, low_half, lowest, pair_word, root_answer, type_answer, type_in};
ghost use Rattle.annotation.specs.Walks.{Annotated, Answers, Bottom, ChildAnswers, Entered, FieldAnswers, Lists, Listing, Pair, Pushed, RowOf, Ruled, bound, parameter_by, unlisted};

use lambdamix::Use;
use script::cause::Cause;
use script::column::{at, put};
use script::columns::Columns;
use script::kinds::{self, is_binder, is_child, own_row};
use script::limits::{MAX_HEIGHT, MAX_INPUTS, MAX_TYPES};
use script::place::root;
use script::word::{child_a, child_b, child_c, kind, name_a, node_word, type_b};
use script::{Counts, Name, NodeNumber, Refusal, Row, TypeNumber};

// Places of the stack: the inputs, and as many binders as a tree is high.
const STACK_PLACES: usize = MAX_INPUTS + MAX_HEIGHT;

// Numbers of 16 bits are below this one.
const LIMIT_16: u32 = 65536;

// The numbers of refusals are below this one.
const FAULT_LIMIT: u32 = 16;

// An answer is a type's number above this one, or below it a fault: its node over its number.
const TYPE_BASE: u32 = FAULT_LIMIT * LIMIT_16;

// The numbers of the types S and D, and of the first listed one.
const STATIC: TypeNumber = TypeNumber(0);

const DYNAMIC: TypeNumber = TypeNumber(1);

const FIRST_LISTED: TypeNumber = TypeNumber(2);

// What a place past the listed types holds: no pair of types.
const UNLISTED: u32 = 4294967295;

// Two numbers in one word: a listed type as its parameter over its result, a binder as its type over its name.
fn pair(high: u16, low: u16) -> u32
    ensures pair { Pair result high low }
    ensures word { result ≡ pair_word high low }
{
    LIMIT_16 * (high as u32) + (low as u32)
}

fn high_half(w: u32) -> u16
    ensures { result ≡ high_half w }
{
    (w / LIMIT_16) as u16
}

fn low_half(w: u32) -> u16
    ensures { result ≡ low_half w }
{
    (w % LIMIT_16) as u16
}

fn typed(t: TypeNumber) -> u32
    ensures { result ≡ type_answer t.0 }
{
    TYPE_BASE + (t.0 as u32)
}

fn fault(cause: Cause, i: NodeNumber) -> u32
    ensures { result ≡ fault_answer (cause_number cause) i.0 }
{
    FAULT_LIMIT * (i.0 as u32) + (cause.number() as u32)
}

// The type of an answer that is no fault.
fn type_in(e: u32) -> TypeNumber
    ensures { result.0 ≡ type_in e }
{
    TypeNumber(low_half(e))
}

// The fault at the lower node; where only one answer is a fault, that one.
#[tactic(auto, using(crate::proofs::Faults::lowest_first, crate::proofs::Faults::lowest_second))]
fn lower(e: u32, f: u32) -> u32
    ensures { result ≡ lowest e f }
{
    if e / FAULT_LIMIT <= f / FAULT_LIMIT {
        e
    } else {
        f
    }
}

// A type where a test holds, else a fault 9 at node i.
// A test and a type, since an `Option` made at each call would be taken apart here.
fn given(ok: bool, t: TypeNumber, i: NodeNumber) -> u32
    ensures { result ≡ given_by ok t.0 i.0 }
{
    if ok {
        typed(t)
    } else {
        fault(Cause::NodeAtFault, i)
    }
}

// The word of a listed type, by its number.
fn listed(types: &[u32], f: TypeNumber) -> u32
    requires { 2 ≤ f.0 }
    ensures { result ≡ get_or types.now (f.0 - 2) 0 }
{
    at(types, (f.0 - FIRST_LISTED.0) as usize, 0)
}

// Application: a function from t to u and an argument t give u.
fn application(types: &[u32], i: NodeNumber, f: TypeNumber, t: TypeNumber) -> u32
    ensures { result ≡ apply_answer types.now i.0 f.0 t.0 }
{
    if f.0 < FIRST_LISTED.0 {
        return fault(Cause::NodeAtFault, i);
    }
    let w = listed(types, f);
    given(TypeNumber(high_half(w)) == t, TypeNumber(low_half(w)), i)
}

// Fix: a function from a function type to that same type gives it.
fn fix(types: &[u32], i: NodeNumber, f: TypeNumber) -> u32
    ensures { result ≡ fix_answer types.now i.0 f.0 }
{
    if f.0 < FIRST_LISTED.0 {
        return fault(Cause::NodeAtFault, i);
    }
    let w = listed(types, f);
    let t = TypeNumber(high_half(w));
    let u = TypeNumber(low_half(w));
    given(FIRST_LISTED.0 <= t.0 && t == u, t, i)
}

// Function: the type from t to u, which must be listed.
// A `for`: the place, a sum and two casts of it are not proved of `position`.
fn function(types: &[u32], i: NodeNumber, t: TypeNumber, u: TypeNumber) -> u32
    ensures { max_types ≤ length types.now → Listing types.now (pair_word t.0 u.0) i.0 result }
{
    if types.len() < MAX_TYPES {
        return fault(Cause::TypeNotListed, i);
    }
    let w = pair(t.0, u.0);
    for j in 0..MAX_TYPES {
        if types[j] == w {
            return typed(TypeNumber(FIRST_LISTED.0 + (j as u16)));
        }
    }
    fault(Cause::TypeNotListed, i)
}

// Variable: its binder's type, the innermost first.
fn variable(stack: &[u32], depth: usize, i: NodeNumber, x: Name) -> u32
    ensures { depth ≤ length stack.now → result ≡ bound stack.now x.0 i.0 depth }
{
    if stack.len() < depth {
        return fault(Cause::NodeAtFault, i);
    }
    for d in (0..depth).rev() {
        let w = stack[d];
        if Name(low_half(w)) == x {
            return typed(TypeNumber(high_half(w)));
        }
    }
    fault(Cause::NodeAtFault, i)
}

// Late kinds: all children D.
fn all_dynamic(t: TypeNumber, u: TypeNumber, v: TypeNumber) -> bool
    ensures { result ≡ (eqb t.0 1 && (eqb u.0 1 && eqb v.0 1)) }
{
    t == DYNAMIC && u == DYNAMIC && v == DYNAMIC
}

// The rule of a node with children on the answers at its fields, of which those that are no children are D; the lowest fault goes first.
fn rule(
    types: &[u32],
    stack: &[u32],
    depth: usize,
    i: NodeNumber,
    w: u64,
    p: TypeNumber,
    e: u32,
    f: u32,
    g: u32,
) -> u32
    requires { 2 ≤ word_kind w }
    ensures { Ruled types.now stack.now depth i.0 (word_kind w) (word_a w) p.0 e f g result }
{
    let least = lower(e, lower(f, g));
    if least < TYPE_BASE {
        return least;
    }
    let t = type_in(e);
    let u = type_in(f);
    let v = type_in(g);
    match kind(w) {
        kinds::LIFT => given(t == STATIC, DYNAMIC, i),
        kinds::FUNCTION => function(types, i, p, v),
        kinds::APPLICATION => application(types, i, t, u),
        kinds::FIX => fix(types, i, t),
        kinds::CONDITIONAL => given(t == STATIC && u == v, u, i),
        kinds::OPERATION => given(t == STATIC && u == STATIC, STATIC, i),
        _ => given(all_dynamic(t, u, v), DYNAMIC, i),
    }
}

// A binder on top; the stack is one deeper.
fn push(stack: &mut [u32], depth: usize, w: u32) -> usize
    ensures { Pushed w depth result stack.old stack.new }
{
    if depth < stack.len() {
        stack[depth] = w;
        depth + 1
    } else {
        depth
    }
}

// The type of a binder's parameter, by the use of the field that may name it: that one, or D.
fn parameter(u: Use, t: TypeNumber) -> TypeNumber
    ensures { result.0 ≡ parameter_by u t.0 }
{
    match u {
        Use::ParameterType => t,
        Use::Nothing | Use::Name | Use::Binder | Use::Child | Use::Operation => DYNAMIC,
    }
}

// A field that is a binder goes on the stack, with its parameter's type; how deep the stack is then.
fn enter(stack: &mut [u32], depth: usize, u: Use, t: TypeNumber, x: Name) -> usize
    ensures { Entered t.0 x.0 depth stack.old (is_binder u) result stack.new }
{
    if is_binder(u) {
        push(stack, depth, pair(t.0, x.0))
    } else {
        depth
    }
}

// The type of node i, under the first binders of the stack, by the table's row of its own kind; a leaf, whose row has nothing to visit,
// by its rule.
#[cycle(types)]
fn node(
    nodes: &&[u64],
    types: &[u32; MAX_TYPES],
    stack: &mut [u32; STACK_PLACES],
    depth: usize,
    i: NodeNumber,
) -> u32
    ensures { Answers nodes.now.now types.now stack.old stack.new depth i.0 result }
{
    let w = node_word(*nodes, i);
    let k = kind(w);
    match k {
        kinds::CONSTANT => typed(STATIC),
        kinds::VARIABLE => variable(stack, depth, i, name_a(w)),
        _ => fields(nodes, types, stack, depth, i, w, own_row(k)),
    }
}

// Field by field, by its use: a binder goes on the stack, and children are typed under it; then the rule of the node's kind.
#[cycle(types)]
fn fields(
    nodes: &&[u64],
    types: &[u32; MAX_TYPES],
    stack: &mut [u32; STACK_PLACES],
    depth: usize,
    i: NodeNumber,
    w: u64,
    row: Row,
) -> u32
    requires { RowOf nodes.now.now i.0 w row }
    ensures { Answers nodes.now.now types.now stack.old stack.new depth i.0 result }
{
    let Row(a, b, c) = row;
    let p = parameter(b, type_b(w));
    let inner = enter(stack, depth, a, p, name_a(w));
    let e = field(nodes, types, stack, inner, i, a, child_a(w));
    let f = field(nodes, types, stack, inner, i, b, child_b(w));
    let g = field(nodes, types, stack, inner, i, c, child_c(w));
    rule(types, stack, depth, i, w, p, e, f, g)
}

// A field that is a child has the child's type, any other is not visited: D, which is no fault.
#[cycle(types)]
fn field(
    nodes: &&[u64],
    types: &[u32; MAX_TYPES],
    stack: &mut [u32; STACK_PLACES],
    depth: usize,
    i: NodeNumber,
    u: Use,
    m: NodeNumber,
) -> u32
    ensures { FieldAnswers nodes.now.now types.now depth i.0 m.0 stack.old (is_child u) stack.new result }
{
    if is_child(u) {
        child(nodes, types, stack, depth, i, m)
    } else {
        typed(DYNAMIC)
    }
}

// A child's number is smaller than its parent's.
#[cycle(types)]
fn child(
    nodes: &&[u64],
    types: &[u32; MAX_TYPES],
    stack: &mut [u32; STACK_PLACES],
    depth: usize,
    i: NodeNumber,
    m: NodeNumber,
) -> u32
    ensures { ChildAnswers nodes.now.now types.now stack.old stack.new depth i.0 m.0 result }
{
    if m.0 < i.0 {
        node(nodes, types, stack, depth, m)
    } else {
        typed(DYNAMIC)
    }
}

// The words of the listed types, over places that hold none.
fn pack_types(parameters: &[u16], results: &[u16], count: u16, types: &mut [u32])
    ensures { types.old ≡ replicate max_types unlisted → count ≤ max_types →
        Lists count (λ j. get_or parameters.now j 0) (λ j. get_or results.now j 0) types.new }
{
    for j in 0..count as usize {
        put(types, j, pair(at(parameters, j, 0), at(results, j, 0)));
    }
}

// The inputs as binders, the first innermost.
fn bind_inputs(inputs: &[u16], count: u16, stack: &mut [u32])
    ensures { count ≤ length stack.old → Bottom count inputs.now stack.new }
{
    for j in 0..count {
        put(
            stack,
            (count - 1 - j) as usize,
            pair(at(inputs, j as usize, 0), j),
        );
    }
}

// The verdict on the root i, whose answer is r: it must be D.
#[tactic(auto, using(crate::proofs::Told::root_fault, crate::proofs::Told::root_late, crate::proofs::Told::root_early), unfolding(script::specs::Verdicts::refusal_of))]
fn verdict(i: NodeNumber, r: u32) -> Result<(), Refusal>
    ensures { refusal_of result ≡ root_answer i.0 r }
{
    if r < TYPE_BASE {
        return Err(Refusal {
            number: (r % FAULT_LIMIT) as u8,
            place: (r / FAULT_LIMIT) as usize,
        });
    }
    if type_in(r) == DYNAMIC {
        return Ok(());
    }
    Err(Cause::RootNotLate.at(i.0 as usize))
}

// Refusals 9, 10 and 11 of tables of which none of 1 to 8 holds.
pub fn annotation_refusal(n: Counts, columns: &Columns, nodes: &[u64]) -> Result<(), Refusal>
    ensures { Annotated n columns.now.parameters.now columns.now.results.now columns.now.inputs.now nodes.now result }
{
    let mut types = [UNLISTED; MAX_TYPES];
    pack_types(columns.parameters, columns.results, n.types, &mut types);
    let mut stack = [0u32; STACK_PLACES];
    bind_inputs(columns.inputs, n.inputs, &mut stack);
    let i = root(n.nodes);
    let depth = n.inputs as usize;
    verdict(i, node(&nodes, &types, &mut stack, depth, i))
}
