// Runs of steps that show what they do between each other.

ghost use Rattle.std.specs.Prelude.{◌≡◌};
ghost use Rattle.life_limits.specs.declared.TheConstants.{MIN_BLOCKS, VERSION};
ghost use Rattle.life_table.specs.Table.{empty_table};
ghost use Rattle.actor_world.specs.Lines.{Lines, lines_begin};
ghost use Rattle.actor_world.specs.Runs.{events_of, first_scene, run};
ghost use Rattle.actor_world.specs.Rows.{no_revival, no_revival_answers, no_revival_events, no_revival_lines};
ghost use Rattle.actor_world.specs.Rows.{open_between_commit_and_mark, open_between_events};
ghost use Rattle.actor_world.specs.Rows.{reclaim_between_events, reclaim_between_load_and_exchange};

/// These runs answer so: a reclaim between an open's load and its exchange, an open between the commit of an unlink and
/// its mark, and an inode whose last holder lets go
/// of it, as steps and as lines.
pub fn rows_run()
    ensures reclaim_between_load_and_exchange { events_of (run reclaim_between_load_and_exchange first_scene)
        ≡ reclaim_between_events }
    ensures open_between_commit_and_mark { events_of (run open_between_commit_and_mark first_scene)
        ≡ open_between_events }
    ensures no_revival { events_of (run no_revival first_scene)
        ≡ no_revival_events }
    ensures no_revival_lines { Lines no_revival_lines (lines_begin (empty_table VERSION 1 MIN_BLOCKS))
        ≡ no_revival_answers }
{}
