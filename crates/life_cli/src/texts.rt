// What is written of a make and of a check.

ghost use Rattle.std.specs.Prelude.{◌≡◌, ◌++◌, ◌∷◌, IfOk, OnOk, codes, string_bytes};
ghost use Rattle.life_cli.specs.Texts.{check_output, found_lines, groups_text, inodes_text, make_output, numbers_line, ring_text};

use crate::checking::Numbers;
use geometry::Geometry;
use life_ports::NoMemory;
use script::{Status, print_status};
use std::alloc::{AllocError, Global};

fn push_text(text: &mut String, more: &str) -> Result<(), AllocError>
    ensures { OnOk result (string_bytes text.new ≡ string_bytes text.old ++ more.now) }
{
    text.push_str(more)
}

/// What is written of the making of an image of so many sectors that ended so.
pub fn print_made(alloc: Global, sectors: u64, ended: Status) -> Result<String, NoMemory>
    ensures { IfOk result (λ text. string_bytes text ≡ make_output sectors ended) }
{
    let mut text = String::new(alloc);
    if let Status::Good = ended {
        write!(text, "made {sectors} sectors\n")?;
    }
    print_status(&mut text, ended)?;
    Ok(text)
}

fn push_groups(text: &mut String, g: &Geometry) -> Result<(), AllocError>
    ensures { OnOk result (string_bytes text.new ≡ string_bytes text.old ++ groups_text g.now) }
{
    let groups = g.groups;
    let blocks = g.blocks;
    write!(text, "groups {groups} blocks {blocks}")
}

fn push_ring(text: &mut String, ring: u32, chunks: u64) -> Result<(), AllocError>
    ensures { OnOk result (string_bytes text.new ≡ string_bytes text.old ++ ring_text ring chunks) }
{
    write!(text, " ring {ring} chunks {chunks}")
}

fn push_inodes(text: &mut String, inodes: u64, orphans: u64) -> Result<(), AllocError>
    ensures { OnOk result (string_bytes text.new ≡ string_bytes text.old ++ inodes_text inodes orphans) }
{
    write!(text, " inodes {inodes} orphans {orphans}\n")
}

fn push_ring_and_inodes(text: &mut String, n: &Numbers) -> Result<(), AllocError>
    ensures { OnOk result (string_bytes text.new ≡ string_bytes text.old
        ++ (ring_text n.now.geometry.ring n.now.tables.chunks ++ inodes_text n.now.tables.inodes n.now.tables.orphans)) }
{
    push_ring(text, n.geometry.ring, n.tables.chunks)?;
    push_inodes(text, n.tables.inodes, n.tables.orphans)
}

fn push_numbers(text: &mut String, n: &Numbers) -> Result<(), AllocError>
    ensures { OnOk result (string_bytes text.new ≡ string_bytes text.old ++ numbers_line n.now) }
{
    push_groups(text, &n.geometry)?;
    push_ring_and_inodes(text, n)
}

fn push_sound(text: &mut String, n: &Numbers) -> Result<(), AllocError>
    ensures { OnOk result (string_bytes text.new ≡ string_bytes text.old ++ (codes "sound" ++ (10 ∷ numbers_line n.now))) }
{
    push_text(text, "sound\n")?;
    push_numbers(text, n)
}

fn push_found(text: &mut String, found: &Option<Numbers>) -> Result<(), AllocError>
    ensures { OnOk result (string_bytes text.new ≡ string_bytes text.old ++ found_lines found.now) }
{
    match found {
        Some(numbers) => push_sound(text, numbers),
        None => Ok(()),
    }
}

/// What is written of a check that ended so, and that found these numbers where the image is sound.
pub fn print_check(
    alloc: Global,
    found: &Option<Numbers>,
    ended: Status,
) -> Result<String, NoMemory>
    ensures { IfOk result (λ text. string_bytes text ≡ check_output found.now ended) }
{
    let mut text = String::new(alloc);
    if let Status::Good = ended {
        push_found(&mut text, found)?;
    }
    print_status(&mut text, ended)?;
    Ok(text)
}
