// The first sectors of a view, as a view.
ghost use Rattle.std.specs.Prelude.{◌≡◌, min, take, refl};
ghost use Rattle.std.proofs.Common.{◌∙◌, ap};
ghost use Rattle.std.proofs.lemmas.List.{length-take};

use disk_model::View;
use life_bytes::Sector;
use life_ports::Failed;

/// The first sectors of a view: what is behind them is not shown. The lender knows that the view was only read.
#[derive(Drop)]
pub(crate) struct FirstSectors<'a, V> {
    view: &'a mut V,
    /// How many there are, where the view has so many.
    count: u64,
}

impl<'a, V: View> FirstSectors<'a, V> {
    ghost use Rattle.inspect.specs.FirstSectors.{count_of, view_of};

    /// Lends a view.
    pub(crate) fn new(view: &'a mut V, count: u64) -> FirstSectors<'a, V>
        ensures view { view_of result ≡ view.entry }
        ensures count { count_of result ≡ count }
    {
        FirstSectors { view, count }
    }
}

impl<'a, V: View> View for FirstSectors<'a, V> {
    ghost known = { V.known };

    ghost sector_count = { λ front. min front.count (V.sector_count front.view.now) };

    ghost fault_count = { λ front. V.fault_count front.view.now };

    ghost image = { λ front. take front.count (V.image front.view.now) };

    ghost only_read = { λ old new. (new.count ≡ old.count) × (new.view.ghost_name ≡ old.view.ghost_name)
        × V.only_read old.view.now new.view.now };

    ghost image_fits = { λ known front.
        length-take front.count (V.image front.view.now)
        ∙ ap (λ n. min front.count n) (V.image_fits known front.view.now) };

    ghost no_read = { λ front. (refl, refl, V.no_read front.view.now) };

    ghost both_read = { λ first second third one two. (
      two.0 ∙ one.0,
      two.1 ∙ one.1,
      V.both_read first.view.now second.view.now third.view.now one.2 two.2,
    ) };

    ghost image_stays = { λ old new read.
        ap (λ n. take n (V.image new.view.now)) read.0
        ∙ ap (λ l. take old.count l) (V.image_stays old.view.now new.view.now read.2) };

    ghost sectors_stay = { λ old new read.
        ap (λ n. min n (V.sector_count new.view.now)) read.0
        ∙ ap (λ n. min old.count n) (V.sectors_stay old.view.now new.view.now read.2) };

    ghost count_never_falls = { λ old new read. V.count_never_falls old.view.now new.view.now read.2 };

    fn sectors(&self) -> u64 {
        self.view.sectors().min(self.count)
    }

    fn faults(&self) -> u64 {
        self.view.faults()
    }

    fn read(&mut self, at: u64, into: &mut Sector) -> Result<(), Failed> {
        self.view.read(at, into)
    }
}
