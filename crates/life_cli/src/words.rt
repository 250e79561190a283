// The words of the command line, as `clap` takes them.

ghost use Rattle.std.specs.Prelude.{◌≡◌, ◌∷◌, ℕ, List, [], Some, Ok, IfOk, IfSome, IsErrAnd, IsSome, MatchOption, map, codes, false, string_bytes};
ghost use Rattle.clap.specs.Words.{app_of, first_value, found_of, kind_of, rule_of};
ghost use Rattle.clap.specs.declared.error.kind.ErrorKind.TheVariants.{OutOfMemory};
ghost use Rattle.life_cli.specs.Words.{BeginWith, image_ids, make_ids, word_rule, words_app};
ghost use Rattle.life_cli.specs.Form.{IsOnImage};

use clap::error::ErrorKind;
use clap::{Arg, ArgMatches, Command, Error};
use life_ports::NoMemory;
use std::alloc::{AllocError, Global};

/// The words behind `make`: the path of the image, and three numbers as they were written.
pub(crate) struct MakeWords<'a> {
    pub(crate) image: &'a str,
    pub(crate) groups: &'a str,
    pub(crate) blocks: &'a str,
    pub(crate) ring: &'a str,
}

/// A positional word that has to be there.
fn word<'a>(alloc: Global, id: &'a str) -> Arg<'a>
    ensures rule { rule_of result ≡ word_rule id.entry.now }
    ensures local { result.global ≡ false }
{
    Arg::new(alloc, id).required(true)
}

/// A form on an image has one word behind its own. No word is read as a flag, so the command has no help.
fn image_command<'a>(alloc: Global, form: &'a str) -> Result<Command<'a>, AllocError>
    ensures { IfOk result (λ command. app_of command ≡ words_app form.entry.now image_ids) }
{
    Command::new(alloc, form)
        .disable_help_flag(true)
        .arg(word(alloc, "image"))
}

/// `make` has four.
fn make_command<'a>(alloc: Global) -> Result<Command<'a>, AllocError>
    ensures { IfOk result (λ command. app_of command ≡ words_app (codes "make") make_ids) }
{
    image_command(alloc, "make")?
        .arg(word(alloc, "groups"))?
        .arg(word(alloc, "blocks"))?
        .arg(word(alloc, "ring"))
}

/// What was matched, where the words were not refused.
fn matches_of<'a>(parsed: Result<ArgMatches<'a>, Error>) -> Result<Option<ArgMatches<'a>>, NoMemory>
    ensures { IfOk result (λ found. MatchOption found
        (IsErrAnd parsed.entry (λ e. kind_of e ≡ OutOfMemory → ⊥)) (λ matches. parsed.entry ≡ Ok matches)) }
{
    match parsed {
        Ok(matches) => Ok(Some(matches)),
        Err(error) => {
            if error.kind() == ErrorKind::OutOfMemory {
                return Err(NoMemory);
            }
            Ok(None)
        }
    }
}

/// The path behind the word of a form on an image, where the words are these two.
pub(crate) fn read_image<'a>(
    alloc: Global,
    form: &'a str,
    words: &'a [String],
) -> Result<Option<&'a str>, NoMemory>
    requires { BeginWith words.now form.now }
    ensures { IfOk result (λ found. MatchOption found
        ((path : List ℕ) → IsOnImage words.entry.now form.entry.now path → ⊥) (λ path. IsOnImage words.entry.now form.entry.now path.now)) }
{
    let command = image_command(alloc, form)?;
    let Some(matches) = matches_of(command.try_get_matches_from(words))? else {
        return Ok(None);
    };
    Ok(matches.get_str("image"))
}

fn make_words<'a>(matches: &ArgMatches<'a>) -> Option<MakeWords<'a>>
    ensures some { IfSome result (λ words. (first_value (found_of matches.now) (codes "image") ≡ Some words.image.now)
        × (first_value (found_of matches.now) (codes "groups") ≡ Some words.groups.now)
        × (first_value (found_of matches.now) (codes "blocks") ≡ Some words.blocks.now)
        × (first_value (found_of matches.now) (codes "ring") ≡ Some words.ring.now)) }
    ensures all { (image groups blocks ring : List ℕ) → first_value (found_of matches.now) (codes "image") ≡ Some image
        → first_value (found_of matches.now) (codes "groups") ≡ Some groups → first_value (found_of matches.now) (codes "blocks") ≡ Some blocks
        → first_value (found_of matches.now) (codes "ring") ≡ Some ring → IsSome result }
{
    Some(MakeWords {
        image: matches.get_str("image")?,
        groups: matches.get_str("groups")?,
        blocks: matches.get_str("blocks")?,
        ring: matches.get_str("ring")?,
    })
}

/// The words behind `make`, where there are four.
pub(crate) fn read_make<'a>(
    alloc: Global,
    words: &'a [String],
) -> Result<Option<MakeWords<'a>>, NoMemory>
    requires { BeginWith words.now (codes "make") }
    ensures { IfOk result (λ found. MatchOption found
        ((image groups blocks ring : List ℕ) → map string_bytes words.entry.now ≡ codes "make" ∷ image ∷ groups ∷ blocks ∷ ring ∷ [] → ⊥)
        (λ w. map string_bytes words.entry.now ≡ codes "make" ∷ w.image.now ∷ w.groups.now ∷ w.blocks.now ∷ w.ring.now ∷ [])) }
{
    let command = make_command(alloc)?;
    let Some(matches) = matches_of(command.try_get_matches_from(words))? else {
        return Ok(None);
    };
    Ok(make_words(&matches))
}
