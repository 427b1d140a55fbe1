//! Math (in neither standard): fenced code of dollars, which has no info.
use crate::fence_names::FenceNames;
use engine_events::event::Name;

/// The names of math and its parts.
pub(crate) const MATH: FenceNames = FenceNames {
    block: Name::MathFlow,
    fence: Name::MathFlowFence,
    sequence: Name::MathFlowFenceSequence,
    info: None,
    meta: Name::MathFlowFenceMeta,
    chunk: Name::MathFlowChunk,
};
