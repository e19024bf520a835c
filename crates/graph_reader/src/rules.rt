#![tactic(auto, unfolding(crate::specs::EdgeList::first_word, crate::specs::EdgeList::vertices, crate::specs::EdgeList::edges, crate::specs::EdgeList::area, crate::specs::EdgeList::first_end_read, crate::specs::EdgeList::second_end_read, crate::specs::EdgeList::weight_read))]

ghost use Rattle.std.specs.Prelude.{◌≡◌, ◌≢◌, ◌<◌, ◌≤◌, ◌^◌, IfOk};
ghost use Rattle.graph_reader.specs.EdgeList.{first_word, vertices, edges, area, first_end_read, second_end_read, weight_read};

use hg_base::{FaultKind, InputFault};
use input_tokens::{Token, number_read, within_limit};

/// Whether the first word says that areas follow.
pub fn first_word(at: u64, token: Token) -> Result<bool, InputFault>
    ensures { result ≡ first_word at token }
{
    match token {
        Token::Graph => Ok(false),
        Token::GraphWithAreas => Ok(true),
        Token::Number(_) | Token::Other => Err(InputFault {
            kind: FaultKind::UnknownForm,
            at,
            value: 0,
        }),
    }
}

/// The number of vertices.
pub fn vertices(at: u64, token: Token) -> Result<u32, InputFault>
    ensures value { result ≡ vertices at token }
    ensures range { IfOk result (λ n. (1 ≤ n) × (n ≤ 1048576)) }
{
    let n = number_read(at, token)?;
    if n == 0 {
        return Err(InputFault {
            kind: FaultKind::NoVertex,
            at,
            value: 0,
        });
    }
    within_limit(1_048_576, at, n)
}

/// The number of edges.
pub fn edges(at: u64, token: Token) -> Result<u32, InputFault>
    ensures value { result ≡ edges at token }
    ensures range { IfOk result (λ m. m ≤ 4194304) }
{
    let m = number_read(at, token)?;
    within_limit(4_194_304, at, m)
}

/// The area of a vertex.
pub fn area(at: u64, token: Token) -> Result<u32, InputFault>
    ensures value { result ≡ area at token }
    ensures range { IfOk result (λ a. (1 ≤ a) × (a ≤ 4096)) }
{
    let a = number_read(at, token)?;
    if a == 0 {
        return Err(InputFault {
            kind: FaultKind::BadNumber,
            at,
            value: 0,
        });
    }
    within_limit(4096, at, a)
}

/// The first end of an edge between two of n vertices.
pub fn first_end_read(n: u32, at: u64, token: Token) -> Result<u32, InputFault>
    ensures value { result ≡ first_end_read n at token }
    ensures range { IfOk result (λ u. u < n) }
{
    let u = number_read(at, token)?;
    if u < u64::from(n) {
        return Ok(u as u32);
    }
    Err(InputFault {
        kind: FaultKind::OutOfRange,
        at,
        value: u,
    })
}

/// The second end of an edge between two of n vertices whose first end is u.
pub fn second_end_read(n: u32, u: u32, at: u64, token: Token) -> Result<u32, InputFault>
    ensures value { result ≡ second_end_read n u at token }
    ensures range { IfOk result (λ v. (v < n) × (u ≢ v)) }
{
    let v = first_end_read(n, at, token)?;
    if v == u {
        return Err(InputFault {
            kind: FaultKind::Loop,
            at,
            value: u64::from(v),
        });
    }
    Ok(v)
}

/// The weight of an edge.
pub fn weight_read(at: u64, token: Token) -> Result<u32, InputFault>
    ensures { result ≡ weight_read at token }
{
    let w = number_read(at, token)?;
    within_limit(u32::MAX, at, w)
}
