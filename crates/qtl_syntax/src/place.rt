//! Where in a specification: the items before, and how much of the next one has come.
ghost use Rattle.std.specs.Prelude.{◌≡◌, ◌≤◌, ◌++◌, ◌∷◌, [], Some, None, IfOk, map, nat_le, false};
ghost use Rattle.std.specs.Option.{option_map};
ghost use Rattle.qtl_syntax.specs.Tree.{formula_of, item_of};
ghost use Rattle.qtl_syntax.specs.Grammar.{item};
ghost use Rattle.qtl_syntax.specs.Machine.{least, finish as finish_lem, option_next};
ghost use Rattle.qtl_syntax.specs.Reading as spec;
ghost use Rattle.qtl_syntax.specs.Reading.{least_in, least_of, moved, added, place_next as place_lem, spot_next as spot_lem, next_place as next_lem, ended as ended_lem};
ghost use Rattle.qtl_syntax.specs.Judge.{is_large};
ghost use Rattle.qtl_syntax.specs.KeptState.{state_of};
ghost use Rattle.qtl_syntax.specs.KeptPlace.{head_of, spot_of, place_of};

use crate::formula::{Formula, Item};
use crate::next::{Measured, finish, is_too_large, next};
use crate::stack::Stack;
use crate::state::{State, may_be_low};
use crate::text::Text;
use crate::token::{Sign, Token, Word};
use sqlite_items::Items;
use std::alloc::{AllocError, Global};

/// What stands before an item's formula.
#[derive(Drop)]
pub enum Head {
    Prop(Text),
    Pred(Text, Items<Text>),
}

/// How much of an item has come.
#[derive(Drop)]
pub enum Spot {
    Start,
    PropName,
    PropColon(Text),
    PredName,
    PredOpen(Text),
    FirstParam(Text),
    NextParam(Text, Items<Text>),
    ParamEnd(Text, Items<Text>),
    PredEquals(Text, Items<Text>),
    Inside(Head, State),
}

/// The items before with the greatest height among them, and how much of the next one has come.
#[derive(Drop)]
pub struct Place {
    pub items: Items<Item>,
    pub tallest: u32,
    pub spot: Spot,
}

/// Before the first token.
pub fn beginning(alloc: Global) -> Place
    ensures { place_of result ≡ spec.beginning }
{
    Place {
        items: Items::new(alloc),
        tallest: 0,
        spot: Spot::Start,
    }
}

/// The item that the token begins, if it begins one.
fn begun(token: &Token) -> Option<Spot>
    ensures { option_map spot_of result ≡ spec.begun token.now }
{
    match token {
        Token::Word(Word::Prop) => Some(Spot::PropName),
        Token::Word(Word::Pred) => Some(Spot::PredName),
        _ => None,
    }
}

fn prop_name(token: &Token) -> Result<Option<Spot>, AllocError>
    ensures { IfOk result (λ o. option_map spot_of o ≡ spot_lem spec.PropName token.now) }
{
    match token {
        Token::Name(name) => Ok(Some(Spot::PropColon(name.copy()?))),
        _ => Ok(None),
    }
}

fn prop_colon(name: Text, token: &Token) -> Option<Spot>
    ensures { option_map spot_of result ≡ spot_lem (spec.PropColon name) token.now }
{
    match token {
        Token::Sign(Sign::Colon) => {
            Some(Spot::Inside(Head::Prop(name), State::Operand(Stack::Bottom)))
        }
        _ => None,
    }
}

fn pred_name(token: &Token) -> Result<Option<Spot>, AllocError>
    ensures { IfOk result (λ o. option_map spot_of o ≡ spot_lem spec.PredName token.now) }
{
    match token {
        Token::Name(name) => Ok(Some(Spot::PredOpen(name.copy()?))),
        _ => Ok(None),
    }
}

fn pred_open(name: Text, token: &Token) -> Option<Spot>
    ensures { option_map spot_of result ≡ spot_lem (spec.PredOpen name) token.now }
{
    match token {
        Token::Sign(Sign::LeftParen) => Some(Spot::FirstParam(name)),
        _ => None,
    }
}

fn first_param(alloc: Global, name: Text, token: &Token) -> Result<Option<Spot>, AllocError>
    ensures { IfOk result (λ o. option_map spot_of o ≡ spot_lem (spec.FirstParam name) token.now) }
{
    let mut params = Items::new(alloc);
    match token {
        Token::Name(param) => {
            params.push(param.copy()?)?;
            Ok(Some(Spot::ParamEnd(name, params)))
        }
        Token::Sign(Sign::RightParen) => Ok(Some(Spot::PredEquals(name, params))),
        _ => Ok(None),
    }
}

fn next_param(
    name: Text,
    mut params: Items<Text>,
    token: &Token,
) -> Result<Option<Spot>, AllocError>
    ensures { IfOk result (λ o. option_map spot_of o ≡ spot_lem (spec.NextParam name params) token.now) }
{
    match token {
        Token::Name(param) => {
            params.push(param.copy()?)?;
            Ok(Some(Spot::ParamEnd(name, params)))
        }
        _ => Ok(None),
    }
}

fn param_end(name: Text, params: Items<Text>, token: &Token) -> Option<Spot>
    ensures { option_map spot_of result ≡ spot_lem (spec.ParamEnd name params) token.now }
{
    match token {
        Token::Sign(Sign::Comma) => Some(Spot::NextParam(name, params)),
        Token::Sign(Sign::RightParen) => Some(Spot::PredEquals(name, params)),
        _ => None,
    }
}

fn pred_equals(name: Text, params: Items<Text>, token: &Token) -> Option<Spot>
    ensures { option_map spot_of result ≡ spot_lem (spec.PredEquals name params) token.now }
{
    match token {
        Token::Sign(Sign::Equals) => {
            Some(Spot::Inside(Head::Pred(name, params), State::Operand(Stack::Bottom)))
        }
        _ => None,
    }
}

fn inside_next(
    alloc: Global,
    head: Head,
    state: State,
    token: &Token,
) -> Result<Option<Spot>, AllocError>
    requires low { least (state_of state) ≤ 256 }
    requires small { is_large (spec.Inside (head_of head) (state_of state)) token.now ≡ false }
    ensures { IfOk result (λ o. option_map spot_of o ≡ spot_lem (spec.Inside (head_of head) (state_of state)) token.now) }
{
    match next(alloc, state, token)? {
        Some(state) => Ok(Some(Spot::Inside(head, state))),
        None => Ok(None),
    }
}

/// One token more of an item.
fn spot_next(alloc: Global, spot: Spot, token: &Token) -> Result<Option<Spot>, AllocError>
    requires low { least_in (spot_of spot) ≤ 256 }
    requires small { is_large (spot_of spot) token.now ≡ false }
    ensures { IfOk result (λ o. option_map spot_of o ≡ spot_lem (spot_of spot) token.now) }
{
    match spot {
        Spot::Start => Ok(begun(token)),
        Spot::PropName => prop_name(token),
        Spot::PropColon(name) => Ok(prop_colon(name, token)),
        Spot::PredName => pred_name(token),
        Spot::PredOpen(name) => Ok(pred_open(name, token)),
        Spot::FirstParam(name) => first_param(alloc, name, token),
        Spot::NextParam(name, params) => next_param(name, params, token),
        Spot::ParamEnd(name, params) => Ok(param_end(name, params, token)),
        Spot::PredEquals(name, params) => Ok(pred_equals(name, params, token)),
        Spot::Inside(head, state) => inside_next(alloc, head, state, token),
    }
}

fn item_made(head: Head, body: Formula) -> Item
    ensures { item_of result ≡ item (head_of head) (formula_of body) }
{
    match head {
        Head::Prop(name) => Item::Prop { name, body },
        Head::Pred(name, params) => Item::Pred { name, params, body },
    }
}

/// The item begun is added, if it may end here, and the next one stands at this spot.
#[tactic(auto, using(crate::proofs::Adding::one_added))]
fn item_added(
    alloc: Global,
    items: Items<Item>,
    tallest: u32,
    head: Head,
    state: State,
    next: Spot,
) -> Result<Option<Place>, AllocError>
    requires low { least (state_of state) ≤ 256 }
    ensures { IfOk result (λ o. option_map place_of o ≡ option_next (finish_lem (state_of state)) (λ m.
        Some (added (record { items = map item_of items; tallest = tallest; spot = spec.Inside (head_of head) (state_of state) }) (head_of head) m (spot_of next)))) }
{
    let mut items = items;
    match finish(alloc, state)? {
        Some(m) => {
            let Measured { formula, height } = m;
            items.push(item_made(head, formula))?;
            Ok(Some(Place {
                items,
                tallest: tallest.max(height),
                spot: next,
            }))
        }
        None => Ok(None),
    }
}

fn at_spot(items: Items<Item>, tallest: u32, spot: Option<Spot>) -> Option<Place>
    ensures { option_map place_of result ≡ option_next (option_map spot_of spot) (λ r.
        Some (record { items = map item_of items; tallest = tallest; spot = r })) }
{
    let spot = spot?;
    Some(Place {
        items,
        tallest,
        spot,
    })
}

/// One token more; a word that begins an item ends the one before.
pub fn next_place(alloc: Global, place: Place, token: &Token) -> Result<Option<Place>, AllocError>
    requires low { least_of (place_of place) ≤ 256 }
    requires small { is_large (spot_of place.spot) token.now ≡ false }
    ensures { IfOk result (λ o. option_map place_of o ≡ next_lem (place_of place) token.now) }
{
    let Place {
        items,
        tallest,
        spot,
    } = place;
    match spot {
        Spot::Inside(head, state) => match begun(token) {
            Some(next) => item_added(alloc, items, tallest, head, state, next),
            None => Ok(at_spot(items, tallest, inside_next(alloc, head, state, token)?)),
        },
        other => Ok(at_spot(items, tallest, spot_next(alloc, other, token)?)),
    }
}

/// Whether the token is the number of a bound, and too large.
pub fn is_too_large_there(spot: &Spot, token: &Token) -> bool
    ensures { result ≡ is_large (spot_of spot.now) token.now }
{
    match spot {
        Spot::Inside(_, state) => is_too_large(state, token),
        _ => false,
    }
}

fn may_be_low_there(spot: &Spot) -> bool
    ensures { result ≡ nat_le (least_in (spot_of spot.now)) 256 }
{
    match spot {
        Spot::Inside(_, state) => may_be_low(state),
        _ => true,
    }
}

/// Whether some specification whose formulas are at most 256 high begins so.
pub fn is_low_place(place: &Place) -> bool
    ensures { result ≡ nat_le (least_of (place_of place.now)) 256 }
{
    place.tallest <= 256 && may_be_low_there(&place.spot)
}

/// The items, if the tokens may end here.
#[tactic(auto, using(crate::proofs::Adding::one_added))]
pub fn ended(alloc: Global, place: Place) -> Result<Option<Items<Item>>, AllocError>
    requires low { least_of (place_of place) ≤ 256 }
    ensures { IfOk result (λ o. option_map (map item_of) o ≡ option_map (λ r. r.0) (ended_lem (place_of place) (spot_of place.spot))) }
{
    let Place {
        items,
        tallest,
        spot,
    } = place;
    match spot {
        Spot::Start => Ok(Some(items)),
        Spot::Inside(head, state) => {
            let added = item_added(alloc, items, tallest, head, state, Spot::Start)?;
            Ok(items_there(added))
        }
        _other => Ok(None),
    }
}

fn items_there(place: Option<Place>) -> Option<Items<Item>>
    ensures { option_map (map item_of) result ≡ option_map (λ p. p.items) (option_map place_of place) }
{
    let Place { items, .. } = place?;
    Some(items)
}
