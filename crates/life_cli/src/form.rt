// What the words of the command line ask for.

ghost use Rattle.std.specs.Prelude.{◌≡◌, ◌↔◌, ◌<◌, ◌^◌, ℕ, List, Some, IsTrue, IfOk, IfSome, MatchOption, codes, string_bytes};
ghost use Rattle.std.specs.Fmt.{decimal};
ghost use Rattle.std.specs.List.{All};
ghost use Rattle.geometry.specs.declared.shape.Geometry.{Geometry};
ghost use Rattle.geometry.specs.Shape.{IsGeometry};
ghost use Rattle.life_cli.specs.Words.{BeginWith};
ghost use Rattle.life_cli.specs.Form.{IsEncoded, IsForm, IsMake, IsNoForm, IsPath, made_geometry};

use crate::words::{MakeWords, read_image, read_make};
use geometry::Geometry;
use life_limits::{MAX_BLOCKS, MAX_GROUPS, MAX_RING, MIN_BLOCKS, MIN_RING, VERSION};
use life_ports::NoMemory;
use life_table::read_number;
use std::alloc::Global;

/// What the program is to do, with the image at this path.
pub enum Form<'a> {
    Steps { path: &'a str },
    Check { path: &'a str },
    Make { path: &'a str, geometry: Geometry },
}

// A word that is not empty and no option.
fn is_path(word: &str) -> bool
    ensures { IsTrue result ↔ IsPath word.now }
{
    match word.as_bytes() {
        [] => false,
        [first, ..] => *first != b'-',
    }
}

// Whether no word is empty or an option.
fn have_no_option(words: &[String]) -> bool
    ensures { IsTrue result ↔ All (λ word. IsPath (string_bytes word)) words.now }
{
    words.iter().all(|word| is_path(word.as_str()))
}

/// The word that chooses the form, where no word is empty or an option.
fn form_word(words: &[String]) -> Option<&str>
    ensures { MatchOption result ((form : List ℕ) → BeginWith words.now form → ⊥) (λ form. BeginWith words.now form.now) }
{
    if !have_no_option(words) {
        return None;
    }
    let form = words.first()?;
    Some(form.as_str())
}

/// Reads a number of 32 bits in decimal without leading zeros.
fn read_small(word: &str) -> Option<u32>
    ensures found { IfSome result (λ n. word.now ≡ decimal n) }
    ensures only { (n : ℕ) → n < 2 ^ 32 → word.now ≡ decimal n → result ≡ Some n }
{
    u32::try_from(read_number(word)?).ok()
}

fn is_within_limits(groups: u32, blocks: u32, ring: u32) -> bool
    ensures { IsTrue result ↔ IsGeometry (made_geometry groups blocks ring) }
{
    1 <= groups
        && groups <= MAX_GROUPS
        && MIN_BLOCKS <= blocks
        && blocks <= MAX_BLOCKS
        && MIN_RING <= ring
        && ring <= MAX_RING
}

/// The geometry that these three words encode.
fn read_geometry(groups: &str, blocks: &str, ring: &str) -> Option<Geometry>
    ensures found { IfSome result (λ g. IsEncoded g groups.now blocks.now ring.now) }
    ensures only { (g : Geometry) → IsEncoded g groups.now blocks.now ring.now → result ≡ Some g }
{
    let groups = read_small(groups)?;
    let blocks = read_small(blocks)?;
    let ring = read_small(ring)?;
    if !is_within_limits(groups, blocks, ring) {
        return None;
    }
    Some(Geometry {
        version: VERSION,
        groups,
        blocks,
        ring,
        uuid: [0, 1, 2, 3, 4, 5, 6, 7, 8, 9, 10, 11, 12, 13, 14, 15],
    })
}

/// The path and the geometry, where the words behind `make` are a path, groups, blocks of a group and sectors of the ring.
fn make_parts<'a>(
    alloc: Global,
    words: &'a [String],
) -> Result<Option<(&'a str, Geometry)>, NoMemory>
    requires { BeginWith words.now (codes "make") }
    ensures { IfOk result (λ found. MatchOption found
        ((path : List ℕ) (g : Geometry) → IsMake words.entry.now path g → ⊥) (λ parts. IsMake words.entry.now parts.0.now parts.1)) }
{
    let Some(
        MakeWords {
            image,
            groups,
            blocks,
            ring,
        },
    ) = read_make(alloc, words)?
    else {
        return Ok(None);
    };
    match read_geometry(groups, blocks, ring) {
        Some(geometry) => Ok(Some((image, geometry))),
        None => Ok(None),
    }
}

/// The form that the words are in. The first word chooses it, and `clap` takes the words behind.
pub fn read_form(alloc: Global, words: &[String]) -> Result<Option<Form<'_>>, NoMemory>
    ensures { IfOk result (λ found. MatchOption found (IsNoForm words.entry.now) (λ form. IsForm words.entry.now form)) }
{
    let Some(form) = form_word(words) else {
        return Ok(None);
    };
    match form {
        "steps" => {
            let path = read_image(alloc, form, words)?;
            Ok(path.map(|path| Form::Steps { path }))
        }
        "check" => {
            let path = read_image(alloc, form, words)?;
            Ok(path.map(|path| Form::Check { path }))
        }
        "make" => {
            let parts = make_parts(alloc, words)?;
            Ok(parts.map(|(path, geometry)| Form::Make { path, geometry }))
        }
        _ => Ok(None),
    }
}
