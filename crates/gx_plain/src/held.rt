//! What a transaction holds, as vectors: claims, predicates, and its own changes (claims with predicates:
//! Kornacker, Mohan, Hellerstein 1997).
ghost use Rattle.std.specs.Prelude.{◌≡◌, ◌<◌, ◌≤◌, ◌+◌, ◌++◌, ◌∷◌, [], ◌||◌, length, nat_lt};
ghost use Rattle.std.specs.Prelude.{vec_len, vec_capacity, true, if◌then◌else◌};
ghost use Rattle.gx_machine.specs.Keys.{keys_of, matches};
ghost use Rattle.gx_machine.specs.Sets.{has, including};
ghost use Rattle.gx_machine.specs.Invariants.{Covered};
ghost use Rattle.gx_machine.specs.Sessions.{has_query};
ghost use Rattle.std.specs.List.{list_any};

use gx_geom::Shape;
use gx_machine::{Entry, MAX_CLAIMS, MAX_PREDICATES, Query, is_same_query, matches};

/// Whether the query is among the predicates.
pub fn has_query<B: Shape>(query: &Query<B>, predicates: &[Query<B>]) -> bool
    ensures { result ≡ has_query (keys_of B.Shape) query.now predicates.now }
{
    predicates.iter().any(|p| is_same_query(query, p))
}

/// Whether one of the predicates matches the entry.
pub fn any_matches<B: Shape>(predicates: &[Query<B>], e: &Entry<B>) -> bool
    ensures { result ≡ list_any (λ q. matches (keys_of B.Shape) q e.now) predicates.now }
{
    predicates.iter().any(|q| matches(q, e))
}

/// Whether one of the claims matches the query.
pub fn any_matching<B: Shape>(query: &Query<B>, claims: &[Entry<B>]) -> bool
    ensures { result ≡ list_any (matches (keys_of B.Shape) query.now) claims.now }
{
    claims.iter().any(|e| matches(query, e))
}

/// Whether a write of the entry conflicts with these locks of another session.
pub fn write_conflicts<B: Shape>(e: &Entry<B>, claims: &[Entry<B>], predicates: &[Query<B>]) -> bool
    ensures { result ≡ has (keys_of B.Shape) e.now claims.now
        || list_any (λ q. matches (keys_of B.Shape) q e.now) predicates.now }
{
    gx_machine::has(e, claims) || any_matches(predicates, e)
}

/// Claims an entry. Returns false, and changes nothing, exactly if the session doesn't have it and all places are used.
pub fn claim<B: Shape>(e: Entry<B>, claims: &mut Vec<Entry<B>>, spent: usize) -> bool
    requires room { MAX_CLAIMS ≤ vec_capacity claims.old }
    requires spent { vec_len claims.old ≤ spent }
    ensures place { result ≡ has (keys_of B.Shape) e claims.old.items || nat_lt spent MAX_CLAIMS }
    ensures claims { claims.new.items ≡
        (if has (keys_of B.Shape) e claims.old.items then claims.old.items
        else if nat_lt spent MAX_CLAIMS then including (keys_of B.Shape) e claims.old.items
        else claims.old.items) }
    ensures claimed { result ≡ true → has (keys_of B.Shape) e claims.new.items ≡ true }
    ensures kept { Covered (keys_of B.Shape) claims.old.items claims.new.items }
    ensures room { MAX_CLAIMS ≤ vec_capacity claims.new }
{
    if gx_machine::has(&e, claims) {
        return true;
    }
    if spent >= MAX_CLAIMS {
        return false;
    }
    gx_machine::include_within_capacity(e, claims);
    true
}

/// Holds a predicate. Returns false, and changes nothing, exactly if the session doesn't have it and its places are
/// used.
pub fn hold<B: Shape>(query: Query<B>, predicates: &mut Vec<Query<B>>) -> bool
    requires { MAX_PREDICATES ≤ vec_capacity predicates.old }
    ensures place { result ≡ has_query (keys_of B.Shape) query predicates.old.items
        || nat_lt (length predicates.old.items) MAX_PREDICATES }
    ensures predicates { predicates.new.items ≡
        (if has_query (keys_of B.Shape) query predicates.old.items then predicates.old.items
        else if nat_lt (length predicates.old.items) MAX_PREDICATES then predicates.old.items ++ query ∷ []
        else predicates.old.items) }
    ensures room { MAX_PREDICATES ≤ vec_capacity predicates.new }
{
    if has_query(&query, predicates) {
        return true;
    }
    let has_room = predicates.len() < MAX_PREDICATES;
    has_room && predicates.push(query).is_ok()
}
