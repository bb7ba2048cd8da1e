//! What an opening begins with. The function does nothing: it stands for the law that its clause names.
ghost use Rattle.std.specs.Prelude.{◌+◌, List, Option};
ghost use Rattle.blsm_model.specs.Sizes.{Sizes};
ghost use Rattle.catalog_swap.specs.declared.catalog.Catalog.{Catalog};
ghost use Rattle.page_space.specs.Space.{SpaceState};
ghost use Rattle.tree_runs.specs.declared.resumable.Resumable.{Resumable};
ghost use Rattle.tree_runs.specs.Ahead.{IsAhead};
ghost use Rattle.tree_runs.specs.Runs.{GuideState, first_tags, opened_from};
ghost use Rattle.tree_settling.specs.Settling.{IsDeepLight};

/// The deep merge that an opening goes on with has taken nothing, so all of C1' and C2 is left for it; or it is taken up, and its finished pages and
/// what is left for it weigh no more than both, and neither do what it had taken before and what is left.
pub fn an_opening_begins_light()
    ensures { (sizes : Sizes) (catalogue : Catalog) (space : SpaceState) (guides : List GuideState) (ahead : Option Resumable)
        → IsAhead first_tags.deep catalogue.progress (catalogue.c1x.weight + catalogue.c2.weight) ahead
        → IsDeepLight (opened_from sizes catalogue space guides ahead) }
{}
