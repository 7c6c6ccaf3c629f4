//! The tags that the variables say.
ghost use Rattle.std.specs.Prelude.{◌≡◌, ◌==◌, ◌++◌, ◌∷◌, [], IfErr, IfOk, OnOk, map, true};
ghost use Rattle.std.specs.Option.{option_copied};
ghost use Rattle.cadence_text.specs.Owned.{tag_of_owned};
ghost use Rattle.cadence_text.specs.Record.{tag_of};
ghost use Rattle.std.specs.List.{flat_map, slice_split};
ghost use Rattle.cadence_environment.specs.EnvironmentFaults.{IsFaultOf, IsMemoryOr, IsRefusedVariable, IsSetFault, NamesNoPath};
ghost use Rattle.cadence_environment.specs.declared.variables.Variable.TheVariants as variable;
ghost use Rattle.cadence_environment.specs.TagTexts.{is_overridden, own_tag, piece_tags, pieces_of, tag_of_text, tags_said};

use crate::error::EnvironmentError;
use crate::trim::trim_spaces;
use crate::variables::{Variable, Variables};
use cadence_text::line::{OwnedTag, Tag};
use std::alloc::{AllocError, Allocator};

// Tags that own their texts, in order.
pub(crate) type Tags<A> = Vec<OwnedTag<A>, A>;

// Adds a tag after the others.
fn push_tag<A: Allocator + Clone>(tags: &mut Tags<A>, tag: Tag<'_>) -> Result<(), AllocError>
    ensures { OnOk result (map tag_of_owned tags.new.items
        ≡ map tag_of_owned tags.old.items ++ tag_of tag.entry ∷ []) }
{
    let alloc = tags.allocator();
    let key = match tag.key {
        Some(key) => Some(String::from_str(alloc.clone()?, key)?),
        None => None,
    };
    let text = String::from_str(alloc.clone()?, tag.text)?;
    tags.push((key, text))?;
    Ok(())
}

// Returns whether the text has a comma, a bar or a newline.
fn has_mark(text: &str) -> bool {
    text.as_bytes()
        .iter()
        .any(|byte| *byte == b',' || *byte == b'|' || *byte == b'\n')
}

// Adds the tag whose value a variable has, if the variable is set: `DD_ENV=prod` adds the tag `env:prod`, for example.
// A text that is cleaned later may have separators.
fn push_own<A: Allocator + Clone>(
    tags: &mut Tags<A>,
    key: &'static str,
    variable: Variable,
    text: &str,
    is_cleaned: bool,
) -> Result<(), EnvironmentError>
    ensures said { OnOk result (map tag_of_owned tags.new.items
        ≡ map tag_of_owned tags.old.items ++ own_tag key.now text.now) }
    ensures refused { IfErr result (IsSetFault variable text.now) }
    ensures cleaned { is_cleaned ≡ true → IfErr result (IsMemoryOr ⊥) }
{
    if text.is_empty() {
        return Ok(());
    }
    if !is_cleaned && has_mark(text) {
        return Err(EnvironmentError::Unusable(variable));
    }
    push_tag(
        tags,
        Tag {
            key: Some(key),
            text,
        },
    )?;
    Ok(())
}

// Returns the tag that a text says: a key and a text with a colon between them, or a text alone.
fn tag_from(text: &str) -> Tag<'_>
    ensures { tag_of result ≡ tag_of_text text.now }
{
    match text.split_once(':') {
        Some((key, text)) => Tag {
            key: Some(key),
            text,
        },
        None => Tag { key: None, text },
    }
}

// Returns whether the tag of this key has a variable of its own (`DD_ENV`, `DD_SERVICE` or `DD_VERSION`) that is set.
fn has_own_variable(variables: &Variables<'_>, key: Option<&str>) -> bool
    ensures { result ≡ is_overridden variables.now (option_copied key.entry) }
{
    let Some(key) = key else {
        return false;
    };
    (key == "env" && !variables.env.is_empty())
        || (key == "service" && !variables.service.is_empty())
        || (key == "version" && !variables.version.is_empty())
}

// Adds the tag of a piece of `DD_TAGS`, unless the piece is empty or the tag has a variable of its own that is set.
fn push_piece<A: Allocator + Clone>(
    tags: &mut Tags<A>,
    variables: &Variables<'_>,
    piece: &str,
) -> Result<(), EnvironmentError>
    ensures said { OnOk result (map tag_of_owned tags.new.items
        ≡ map tag_of_owned tags.old.items ++ piece_tags variables.now piece.now) }
    ensures refused { IfErr result (IsFaultOf variable.Tags) }
{
    let text = trim_spaces(piece);
    if text.is_empty() {
        return Ok(());
    }
    if text.starts_with(':') {
        return Err(EnvironmentError::Unusable(Variable::Tags));
    }
    let tag = tag_from(text);
    if !has_own_variable(variables, tag.key) {
        push_tag(tags, tag)?;
    }
    Ok(())
}

// Returns the pieces between the commas of a text.
fn split_at_commas<A: Allocator>(alloc: A, text: &str) -> Result<Vec<&str, A>, AllocError>
    ensures { IfOk result (λ pieces.
        map (λ w. w.now) pieces.items ≡ slice_split (λ b. b == 44) text.now) }
{
    text.split(',').collect(alloc)
}

// Returns the pieces between the spaces of a text.
fn split_at_spaces<A: Allocator>(alloc: A, text: &str) -> Result<Vec<&str, A>, AllocError>
    ensures { IfOk result (λ pieces.
        map (λ w. w.now) pieces.items ≡ slice_split (λ b. b == 32) text.now) }
{
    text.split(' ').collect(alloc)
}

// Returns the pieces of a text: those between its commas, or those between its spaces if it has no comma.
fn split_pieces<A: Allocator>(alloc: A, text: &str) -> Result<Vec<&str, A>, AllocError>
    ensures { IfOk result (λ pieces. map (λ w. w.now) pieces.items ≡ pieces_of text.now) }
{
    if text.as_bytes().contains(&b',') {
        return split_at_commas(alloc, text);
    }
    split_at_spaces(alloc, text)
}

// Adds the tag of each of these pieces of `DD_TAGS`, as `push_piece` does.
fn push_pieces<A: Allocator + Clone>(
    tags: &mut Tags<A>,
    variables: &Variables<'_>,
    pieces: &[&str],
) -> Result<(), EnvironmentError>
    ensures said { OnOk result (map tag_of_owned tags.new.items ≡ map tag_of_owned tags.old.items
        ++ flat_map (piece_tags variables.now) (map (λ w. w.now) pieces.now)) }
    ensures refused { IfErr result (IsFaultOf variable.Tags) }
{
    for piece in pieces {
        push_piece(tags, variables, piece)?;
    }
    Ok(())
}

// Adds the tags of `DD_TAGS`. A text that is cleaned later may have bars and newlines.
fn push_listed<A: Allocator + Clone>(
    tags: &mut Tags<A>,
    variables: &Variables<'_>,
    is_cleaned: bool,
) -> Result<(), EnvironmentError>
    ensures said { OnOk result (map tag_of_owned tags.new.items ≡ map tag_of_owned tags.old.items
        ++ flat_map (piece_tags variables.now) (pieces_of variables.now.tags.now)) }
    ensures refused { IfErr result (IsSetFault variable.Tags variables.now.tags.now) }
{
    let text = variables.tags;
    if text.is_empty() {
        return Ok(());
    }
    if !is_cleaned && (text.contains('|') || text.contains('\n')) {
        return Err(EnvironmentError::Unusable(Variable::Tags));
    }
    let pieces = split_pieces(tags.allocator().clone()?, text)?;
    push_pieces(tags, variables, &pieces)
}

// Returns the tags that the variables say, in order. If their texts are cleaned later (`is_cleaned`), a separator in one
// is no reason to refuse it.
pub(crate) fn read_tags<A: Allocator + Clone>(
    alloc: A,
    variables: &Variables<'_>,
    is_cleaned: bool,
) -> Result<Tags<A>, EnvironmentError>
    ensures said { IfOk result (λ tags. map tag_of_owned tags.items ≡ tags_said variables.now) }
    ensures refused { IfErr result (IsRefusedVariable variables.now) }
    ensures paths { IfErr result (NamesNoPath variables.now) }
    ensures cleaned { is_cleaned ≡ true → IfErr result (IsFaultOf variable.Tags) }
{
    let (env, service, version) = (variables.env, variables.service, variables.version);
    let id = variables.entity_id;
    let mut tags = Vec::new(alloc);
    push_own(&mut tags, "env", Variable::Env, env, is_cleaned)?;
    push_own(&mut tags, "service", Variable::Service, service, is_cleaned)?;
    push_own(&mut tags, "version", Variable::Version, version, is_cleaned)?;
    push_listed(&mut tags, variables, is_cleaned)?;
    push_own(
        &mut tags,
        "dd.internal.entity_id",
        Variable::EntityId,
        id,
        is_cleaned,
    )?;
    Ok(tags)
}
