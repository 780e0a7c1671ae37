//! Files: a header or none, models, and the name of the root.

ghost use Rattle.std.specs.Prelude.{◌≡◌, IfOk, IfErr, map};
ghost use Rattle.dv_source.specs.Grammar.{has_short_forms, IsWritten};
ghost use Rattle.dv_source.specs.Sources.{source_of, written_model};
ghost use Rattle.dv_syntax.specs.Grammar.{the_limits};
ghost use Rattle.dv_parser.specs.Reading.{Gives, IsRefused, many_at, model_at, file_at, obstacle_of};
ghost use Rattle.dv_parser.specs.Reading.{Reads, header_at, version_at, refusal_of, answer_of, our_limits};

use crate::atomic::atomic;
use crate::coupled::coupled;
use crate::parse_error::{Obstacle, ParseError};
use crate::token::{
    after_keyword, after_number, after_symbol, begins_with_keyword, begins_with_number, name,
    test_end,
};
use dv_lex::{Keyword, LoadError, Refusal, RefusalNumber, Symbol, Token, TokenKind};
use dv_source::{SourceFile, SourceModel};
use dv_syntax::Version;
use std::alloc::Global;

/// The model at the front.
#[tactic(auto, unfolding(crate::specs::Reading::model_at, crate::specs::Reading::read_then, crate::specs::Reading::choose))]
fn model(
    alloc: Global,
    tokens: &[Token],
    short: bool,
) -> Result<(SourceModel, &[Token]), ParseError>
    ensures { Gives (λ x. (written_model x.0, x.1.now)) result (model_at (our_limits short) tokens.now) }
{
    if begins_with_keyword(tokens, Keyword::Coupled) {
        let (coupled, rest) = coupled(alloc, tokens)?;
        Ok((SourceModel::Coupled(coupled), rest))
    } else {
        let (atomic, rest) = atomic(alloc, tokens, short)?;
        Ok((SourceModel::Atomic(atomic), rest))
    }
}

/// The models before `root`.
fn models(
    alloc: Global,
    tokens: &[Token],
    short: bool,
) -> Result<(Vec<SourceModel>, &[Token]), ParseError>
    ensures { Gives (λ x. (map written_model x.0.items, x.1.now)) result
        (many_at (model_at (our_limits short)) (TokenKind.Keyword Keyword.Root) tokens.now) }
{
    let mut models = Vec::new(alloc);
    let mut rest = tokens;
    while !begins_with_keyword(rest, Keyword::Root) {
        let (model, after) = model(alloc, rest, short)?;
        models.push(model)?;
        rest = after;
    }
    Ok((models, rest))
}

/// The number of a version at the front, and the rest.
#[tactic(auto, unfolding(crate::specs::Reading::version_at, crate::specs::Reading::read_then, crate::specs::Reading::choose))]
fn version(tokens: &[Token]) -> Result<(Version, &[Token]), Obstacle>
    ensures { Reads (λ x. (x.0, x.1.now)) result (version_at tokens.now) }
{
    if begins_with_number(tokens, 1) {
        let rest = after_number(tokens, 1)?;
        Ok((Version::First, rest))
    } else if begins_with_number(tokens, 2) {
        let rest = after_number(tokens, 2)?;
        Ok((Version::Second, rest))
    } else {
        let rest = after_number(tokens, 3)?;
        Ok((Version::Third, rest))
    }
}

/// The header at the front, if there is one, and the rest.
#[tactic(auto, unfolding(crate::specs::Reading::header_at, crate::specs::Reading::read_then, crate::specs::Reading::choose))]
fn header(tokens: &[Token]) -> Result<(Option<Version>, &[Token]), Obstacle>
    ensures { Reads (λ x. (x.0, x.1.now)) result (header_at tokens.now) }
{
    if begins_with_keyword(tokens, Keyword::Version) {
        let rest = after_keyword(tokens, Keyword::Version)?;
        let (version, rest) = version(rest)?;
        let rest = after_symbol(rest, Symbol::Semicolon)?;
        Ok((Some(version), rest))
    } else {
        Ok((None, tokens))
    }
}

/// Whether a text with this header may have the short forms.
fn has_short_forms(header: Option<Version>) -> bool
    ensures { result ≡ has_short_forms header }
{
    match header {
        Some(Version::Third) => true,
        Some(Version::First | Version::Second) | None => false,
    }
}

/// All the tokens as a file.
#[tactic(auto, unfolding(crate::specs::Reading::file_at, crate::specs::Reading::obstacle_at, crate::specs::Reading::read_then, crate::specs::Reading::choose))]
fn file(alloc: Global, tokens: &[Token]) -> Result<SourceFile, ParseError>
    ensures { Gives source_of result (file_at the_limits tokens.now) }
{
    let (header, rest) = header(tokens)?;
    let (models, rest) = models(alloc, rest, has_short_forms(header))?;
    let rest = after_keyword(rest, Keyword::Root)?;
    let (root, rest) = name(rest)?;
    let rest = after_symbol(rest, Symbol::Semicolon)?;
    test_end(rest)?;
    Ok(SourceFile {
        header,
        models,
        root,
    })
}

/// The refusal of the tokens of a text that ends at this offset, by what stopped the parser.
fn refusal(obstacle: Obstacle, end: u32) -> Refusal
    ensures { result ≡ refusal_of (obstacle_of obstacle) end }
{
    match obstacle {
        Obstacle::Unexpected(offset) => Refusal {
            number: RefusalNumber::E4,
            offset,
        },
        Obstacle::TooDeep(offset) => Refusal {
            number: RefusalNumber::E5,
            offset,
        },
        Obstacle::TooShort => Refusal {
            number: RefusalNumber::E4,
            offset: end,
        },
    }
}

/// The error for the tokens of a text that ends at this offset, by why they could not be read.
fn load_error(error: ParseError, end: u32) -> LoadError
    ensures { result ≡ answer_of error end }
{
    match error {
        ParseError::Memory => LoadError::Memory,
        ParseError::Stopped(obstacle) => LoadError::Refused(refusal(obstacle, end)),
    }
}

/// The source that the tokens spell. `end` is the offset of the end of the text.
///
/// # Errors
///
/// - `Refused` with E4 or E5: the tokens are those of no file. The offset is that of the first
///   token after which the tokens begin no file within the limits on depth: E5 if they still begin
///   one without these limits, else E4. If they end too early it is E4 at the end of the text.
/// - `Memory`: no memory for the trees.
pub fn parse(alloc: Global, tokens: &[Token], end: u32) -> Result<SourceFile, LoadError>
    ensures tree { IfOk result (λ source. IsWritten the_limits tokens.now (source_of source)) }
    ensures refused { IfErr result (λ e. IsRefused e tokens.now end) }
{
    match file(alloc, tokens) {
        Ok(source) => Ok(source),
        Err(error) => Err(load_error(error, end)),
    }
}
